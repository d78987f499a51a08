//! The values of forms, worked out by hand.

use crate::kinds::{Kind, OfCondition, OfForm, check_texts};
use heylo_formula::{Form, Val};
use heyvl_num::Ext;
use quant_algebra::{At, Held, value_at};
use std::alloc::{AllocError, Global};
use test_texts::{fraction, write_fraction};

fn val(word: &str) -> Result<Val, AllocError> {
    match word {
        "true" => Ok(Val::Truth(true)),
        "false" => Ok(Val::Truth(false)),
        _ => Ok(Val::Num(fraction(word)?)),
    }
}

fn state_of(alloc: Global, text: &str) -> Result<Vec<Val>, AllocError> {
    let mut state = Vec::new(alloc);
    for word in text.split_whitespace() {
        state.push(val(word)?)?;
    }
    Ok(state)
}

fn write_at(value: &At, text: &mut String) -> Result<(), AllocError> {
    match value {
        At::Value(Ext::Fin(x)) => write_fraction(x, text),
        At::Value(Ext::Inf) => text.push_str("inf"),
        At::Bits => text.push_str("bits"),
    }
}

/// Writes the value of a form in a state.
pub fn write_value(
    alloc: Global,
    form: &Form,
    state: &str,
    text: &mut String,
) -> Result<(), AllocError> {
    let state = state_of(alloc, state)?;
    write_at(&value_at(form, &state), text)
}

/// Returns the text of whether something holds.
pub fn held(held: Held) -> &'static str {
    match held {
        Held::No => "no",
        Held::Yes => "yes",
        Held::Bits => "bits",
    }
}

/// Operators of two values. 1/2^63 and 1/2^64 can be compared, and their difference does not fit
/// into 127 bits.
const TWO: &str = "\
3 5 + gives 8
3 5 * gives 15
3 5 min gives 3
3 5 max gives 5
3 5 imply gives inf
3 5 coimply gives 5
5 3 + gives 8
5 3 * gives 15
5 3 min gives 3
5 3 max gives 5
5 3 imply gives 3
5 3 coimply gives 0
1/2 1/2 + gives 1
1/2 1/2 * gives 1/4
1/2 1/2 min gives 1/2
1/2 1/2 max gives 1/2
1/2 1/2 imply gives inf
1/2 1/2 coimply gives 0
0 inf + gives inf
0 inf * gives 0
0 inf min gives 0
0 inf max gives inf
0 inf imply gives inf
0 inf coimply gives inf
inf 0 + gives inf
inf 0 * gives 0
inf 0 min gives 0
inf 0 max gives inf
inf 0 imply gives 0
inf 0 coimply gives 0
inf inf + gives inf
inf inf * gives inf
inf inf min gives inf
inf inf max gives inf
inf inf imply gives inf
inf inf coimply gives 0
0 0 + gives 0
0 0 * gives 0
0 0 min gives 0
0 0 max gives 0
0 0 imply gives inf
0 0 coimply gives 0
170141183460469231731687303715884105727/2 inf + gives inf
170141183460469231731687303715884105727/2 inf * gives inf
170141183460469231731687303715884105727/2 inf min gives 170141183460469231731687303715884105727/2
170141183460469231731687303715884105727/2 inf max gives inf
170141183460469231731687303715884105727/2 inf imply gives inf
170141183460469231731687303715884105727/2 inf coimply gives inf
170141183460469231731687303715884105727/2 170141183460469231731687303715884105727/3 + gives bits
170141183460469231731687303715884105727/2 170141183460469231731687303715884105727/3 * gives bits
170141183460469231731687303715884105727/2 170141183460469231731687303715884105727/3 min gives bits
170141183460469231731687303715884105727/2 170141183460469231731687303715884105727/3 max gives bits
170141183460469231731687303715884105727/2 170141183460469231731687303715884105727/3 imply gives bits
170141183460469231731687303715884105727/2 170141183460469231731687303715884105727/3 coimply gives bits
170141183460469231731687303715884105727 1 + gives bits
170141183460469231731687303715884105727 1 * gives 170141183460469231731687303715884105727
170141183460469231731687303715884105727 1 min gives 1
170141183460469231731687303715884105727 1 max gives 170141183460469231731687303715884105727
170141183460469231731687303715884105727 1 imply gives 1
170141183460469231731687303715884105727 1 coimply gives 0
3 5 - gives -2
3 5 cut gives 0
0 0 - gives 0
0 0 cut gives 0
5/2 0 - gives 5/2
5/2 0 cut gives 5/2
# 1/2^63 and 1/2^64 can be compared, and have no difference in 127 bits
1/9223372036854775808 1/18446744073709551616 - gives bits
1/9223372036854775808 1/18446744073709551616 cut gives bits
1/18446744073709551616 1/9223372036854775808 - gives bits
1/18446744073709551616 1/9223372036854775808 cut gives 0
5 3 - gives 2
5 3 cut gives 2
4 4 - gives 0
4 4 cut gives 0
-170141183460469231731687303715884105727 1 - gives bits
-170141183460469231731687303715884105727 1 cut gives 0";

/// Operators of one value.
const ONE: &str = "\
3 scale:1/2 gives 3/2
5 scale:0 gives 0
0 scale:1/3 gives 0
inf scale:0 gives 0
inf scale:1/2 gives inf
170141183460469231731687303715884105727 scale:2 gives bits
1/9223372036854775808 scale:1/18446744073709551616 gives bits
0 validate gives 0
0 covalidate gives 0
1/3 validate gives 0
1/3 covalidate gives inf
inf validate gives inf
inf covalidate gives inf";

/// Forms that evaluate one part, or both.
const CHOSEN: &str = "\
true 2 170141183460469231731687303715884105727 1 + select gives 2
true 170141183460469231731687303715884105727 1 + 2 select gives bits
false 0 170141183460469231731687303715884105727 1 + select gives bits
false 170141183460469231731687303715884105727 1 + 0 select gives 0
false inf 170141183460469231731687303715884105727 1 + select gives bits
false 170141183460469231731687303715884105727 1 + inf select gives inf
170141183460469231731687303715884105727 1 + 1 <= 2 170141183460469231731687303715884105727 1 + select gives bits
170141183460469231731687303715884105727 1 + 1 <= 170141183460469231731687303715884105727 1 + 2 select gives bits
0 170141183460469231731687303715884105727 1 + + gives bits
0 170141183460469231731687303715884105727 1 + * gives bits
170141183460469231731687303715884105727 1 + 0 min gives bits
0 170141183460469231731687303715884105727 1 + imply gives bits
170141183460469231731687303715884105727 1 + 0 coimply gives bits
inf 170141183460469231731687303715884105727 1 + + gives bits
inf 170141183460469231731687303715884105727 1 + * gives bits
170141183460469231731687303715884105727 1 + inf min gives bits
inf 170141183460469231731687303715884105727 1 + imply gives bits
170141183460469231731687303715884105727 1 + inf coimply gives bits
170141183460469231731687303715884105727 1 + validate gives bits
# variable 0 is true, variable 1 is 7/2
y ; true 7/2 gives 7/2
b0 [] ; true 7/2 gives 1
b0 not [] ; true 7/2 gives 0
b0 embed ; true 7/2 gives inf
1/2 2/3 < [] gives 1
1/2 2/3 <= [] gives 1
1/2 2/3 = [] gives 0
2/3 2/3 < [] gives 0
2/3 2/3 <= [] gives 1
2/3 2/3 = [] gives 1
2/3 1/2 < [] gives 0
2/3 1/2 <= [] gives 0
2/3 1/2 = [] gives 0";

/// Conditions skip a part that does not matter.
const CONDITIONS: &str = "\
false false and gives no
false false or gives no
false false same gives yes
false true and gives no
false true or gives yes
false true same gives no
false 170141183460469231731687303715884105727 1 + 1 <= and gives no
false 170141183460469231731687303715884105727 1 + 1 <= or gives bits
false 170141183460469231731687303715884105727 1 + 1 <= same gives bits
true false and gives no
true false or gives yes
true false same gives no
true true and gives yes
true true or gives yes
true true same gives yes
true 170141183460469231731687303715884105727 1 + 1 <= and gives bits
true 170141183460469231731687303715884105727 1 + 1 <= or gives yes
true 170141183460469231731687303715884105727 1 + 1 <= same gives bits
170141183460469231731687303715884105727 1 + 1 <= false and gives bits
170141183460469231731687303715884105727 1 + 1 <= false or gives bits
170141183460469231731687303715884105727 1 + 1 <= false same gives bits
170141183460469231731687303715884105727 1 + 1 <= true and gives bits
170141183460469231731687303715884105727 1 + 1 <= true or gives bits
170141183460469231731687303715884105727 1 + 1 <= true same gives bits
170141183460469231731687303715884105727 1 + 1 <= 170141183460469231731687303715884105727 1 + 1 <= and gives bits
170141183460469231731687303715884105727 1 + 1 <= 170141183460469231731687303715884105727 1 + 1 <= or gives bits
170141183460469231731687303715884105727 1 + 1 <= 170141183460469231731687303715884105727 1 + 1 <= same gives bits
true false 170141183460469231731687303715884105727 1 + 1 <= ite gives no
true 170141183460469231731687303715884105727 1 + 1 <= false ite gives bits
false 170141183460469231731687303715884105727 1 + 1 <= true ite gives yes
false true 170141183460469231731687303715884105727 1 + 1 <= ite gives bits
170141183460469231731687303715884105727 1 + 1 <= true true ite gives bits";

/// Goals in both directions.
const GOALS: &str = "\
2 1 gives yes
1 2 gives no
lower 1 2 gives yes
lower inf 2 gives no
170141183460469231731687303715884105727/2 170141183460469231731687303715884105727/3 gives bits";

#[test]
fn values(rt: HostRuntime) -> Result<(), AllocError> {
    check_texts(&rt, Kind::Form(OfForm::Value), &[TWO, ONE, CHOSEN])?;
    check_texts(&rt, Kind::Condition(OfCondition::Truth), &[CONDITIONS])?;
    check_texts(&rt, Kind::Goal, &[GOALS])
}
