//! Results of runs: sums, or what stops them, worked out by hand.

use crate::kinds::{Kind, check_texts};
use std::alloc::AllocError;

/// Files, procedures and scripts, with a bar for each line feed, and the status and the text of the
/// result.
const SUMS: &str = "\
geo ; geo ; steps 7|set init_c 0| gives 0 [post 0|reward 0|running 1/2|loop 1 turns 3/2|]
geo ; geo ; steps 11|set init_c 0| gives 0 [post 1/4|reward 0|running 1/4|loop 1 turns 7/4|]
geo ; geo ; steps 0|set init_c 0| gives 0 [post 0|reward 0|running 1|loop 1 turns 0|]
geo ; geo ; steps 7|set init_c 4 gives 0 [post 2|reward 0|running 1/2|loop 1 turns 3/2|]
geo ; geo ; steps 10001|set init_c 0| gives 3 [script line 1: fault|]
many ; many ; steps 3| gives 0 [post 0|reward 0|running 1|loop 1 turns 2|]
rec ; rec ; steps 510| gives 0 [post 0|reward 0|running 1|]
rec ; rec ; steps 511| gives 8 [run stopped at step 511: values|]
big ; big ; steps 1| gives 0 [post 0|reward 170141183460469231731687303715884105727|running 1|]
big ; big ; steps 2| gives 8 [run stopped at step 2: bits|]
guess ; guess ; steps 2|decide true| gives 0 [post 1/2|reward 0|running 0|]
guess ; guess ; steps 2| gives 0 [post 1/2|reward 0|running 0|]
said ; said ; steps 2|decide true| gives 0 [post 1|reward 0|running 0|]
said ; said ; steps 2| gives 0 [post 0|reward 0|running 0|]
said ; said ; steps 2|decide 1| gives 0 [post 0|reward 0|running 0|]
said ; said ; steps 1|decide true| gives 0 [post 0|reward 0|running 1|]
two ; two ; steps 2|decide 3| gives 0 [post 3|reward 0|running 0|]
two ; two ; steps 2|decide 3|decide 4|decide 5| gives 0 [post 43|reward 0|running 0|]
two ; two ; steps 2|decide -3|decide 4| gives 0 [post 40|reward 0|running 0|]
pick ; pick ; steps 2|decide right| gives 0 [post 2|reward 0|running 0|]
pick ; pick ; steps 2|decide left| gives 0 [post 1|reward 0|running 0|]
pick ; pick ; steps 2| gives 0 [post 1|reward 0|running 0|]
apart ; apart ; steps 5|decide 5|decide 7| gives 0 [post 6|reward 0|running 0|]
call ; main ; steps 5|decide 8|decide 6| gives 0 [post 46|reward 0|running 0|]
call ; main ; steps 4|decide 8|decide 6| gives 0 [post 0|reward 0|running 1|]
call ; f ; steps 1|set u 4|set q 2| gives 0 [post 99|reward 0|running 0|]
loops ; loops ; steps 12|set n 2| gives 0 [post 0|reward 2|running 0|loop 1 turns 2|loop 2 turns 1|]
loops ; loops ; steps 11|set n 2| gives 0 [post 0|reward 2|running 1|loop 1 turns 2|loop 2 turns 1|]
loops ; loops ; steps 2| gives 0 [post 0|reward 0|running 1|loop 1 turns 0|loop 2 turns 0|]
inner ; outer ; steps 99|set n 1| gives 0 [post 0|reward 0|running 0|loop 1 turns 1|]
inner ; outer ; steps 99|set n 2| gives 0 [post 0|reward 0|running 0|loop 1 turns 2|]
inner ; f ; steps 6| gives 0 [post 0|reward 0|running 0|loop 1 turns 2|]
weak ; weak ; steps 9| gives 0 [post 0|reward 0|running 1/3|loop 1 turns 7/3|]
weak ; weak ; steps 1|set b true| gives 0 [post 0|reward 0|running 1|loop 1 turns 0|]";

#[test]
fn runs_come_to_their_sums(rt: HostRuntime) -> Result<(), AllocError> {
    check_texts(&rt, Kind::Run, &[SUMS])
}

/// Runs that reach the same configuration are merged: 2^200 runs are two at most. Rewards and
/// numbers of decisions keep runs apart.
const MERGED: &str = "\
coins ; coins ; steps 400| gives 0 [post 0|reward 0|running 1|loop 1 turns 200|]
parts ; parts ; steps 1| gives 0 [post 0|reward 0|running 1|]
parts ; parts ; steps 2| gives 0 [post 5|reward 0|running 0|]
paid ; paid ; steps 5| gives 0 [post 0|reward 4|running 0|]
apart ; apart ; steps 4|decide 5|decide 7| gives 0 [post 0|reward 0|running 1|]";

#[test]
fn merged_runs_come_to_their_sums(rt: HostRuntime) -> Result<(), AllocError> {
    check_texts(&rt, Kind::Run, &[MERGED])
}

/// The largest number of outcomes of a step, 65,536, which are merged to 256 configurations, and
/// the longest list, which one draw more would exceed.
const LONG: &str = "\
many ; many ; steps 5| gives 0 [post 0|reward 0|running 1|loop 1 turns 3|]
many ; many ; steps 6| gives 0 [post 0|reward 0|running 1|loop 1 turns 3|]
wide ; wide ; steps 3| gives 8 [run stopped at step 3: runs|]";

#[test]
fn long_lists_come_to_their_sums(rt: HostRuntime) -> Result<(), AllocError> {
    check_texts(&rt, Kind::Run, &[LONG])
}
