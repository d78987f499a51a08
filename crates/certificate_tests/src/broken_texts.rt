//! Texts that no list of certificates has, with the first invalid line, worked out by hand.

use cert_text::{CertStop, read_cert};
use std::alloc::{AllocError, Global};
use std::process::Abort;
use std::test::Fail;

/// Whole texts.
const TEXTS: [(&str, u32); 53] = [
    ("", 1),
    ("\n", 1),
    ("caesar certificate 1", 1),
    ("caesar certificate 3\nend\n", 1),
    ("caesar certificate 0\nend\n", 1),
    ("caesar certificate 12\nend\n", 1),
    ("caesar certificate 2 \nend\n", 1),
    ("caesar certificate 2", 1),
    ("caesar certificate 2\n", 2),
    ("caesar certificate 2\nend", 2),
    ("caesar certificate 2\nend\n", 2),
    ("caesar certificate 2\ncaesar certificate 2\nend\n", 2),
    ("caesar certificate 2\ngoal 0 main\nt\nend\n", 4),
    (
        "caesar certificate 2\ngoal 4294967295 ranking 4294967295\nt\nend\n",
        4,
    ),
    ("caesar certificate 2\ngoal 0 main\nt\nend\nend\n", 4),
    ("caesar certificate 2\ngoal 0 main\ns\ns\nt\nt\nt\nend\n", 8),
    (
        "caesar certificate 2\ngoal 0 main\ni 0 5\nt\nt\nend\nend\n",
        7,
    ),
    ("caesar certificate 2\ngoal 0 main\ni 0 5\nt\nend\n", 5),
    ("caesar certificate 1 \nend\n", 1),
    (" caesar certificate 1\nend\n", 1),
    ("caesar certificate 1\r\nend\n", 1),
    ("caesar  certificate 1\nend\n", 1),
    ("Caesar certificate 1\nend\n", 1),
    ("caesar certificate 01\nend\n", 1),
    ("caesar certificate 10\nend\n", 1),
    ("caesar certificate\nend\n", 1),
    ("\ncaesar certificate 1\nend\n", 1),
    ("goal 0 main\nt\nend\n", 1),
    ("end\n", 1),
    ("caesar certificate 1\n", 2),
    ("caesar certificate 1\n\n", 2),
    ("caesar certificate 1\nend", 2),
    ("caesar certificate 1\nend \n", 2),
    ("caesar certificate 1\n end\n", 2),
    ("caesar certificate 1\nend\r\n", 2),
    ("caesar certificate 1\nEnd\n", 2),
    ("caesar certificate 1\ncaesar certificate 1\nend\n", 2),
    ("caesar certificate 1\nt\nend\n", 2),
    ("caesar certificate 1\ns\nt\nt\nend\n", 2),
    ("caesar certificate 1\nf 0:1\nend\n", 2),
    ("caesar certificate 1\ngoal 0 main", 2),
    ("caesar certificate 1\nend\n\n", 3),
    ("caesar certificate 1\nend\nend\n", 3),
    ("caesar certificate 1\nend\nx", 3),
    ("caesar certificate 1\nend\n ", 3),
    ("caesar certificate 1\nend\ngoal 0 main\nt\nend\n", 3),
    ("caesar certificate 1\ngoal 0 main\n", 3),
    ("caesar certificate 1\ngoal 0 main\nt", 3),
    ("caesar certificate 1\ngoal 0 main\nend\n", 3),
    (
        "caesar certificate 1\ngoal 0 main\ngoal 1 main\nt\nend\n",
        3,
    ),
    ("caesar certificate 1\ngoal 0 main\nt\n", 4),
    ("caesar certificate 1\ngoal 0 main\nt\nt\nend\n", 4),
    ("caesar certificate 1\ngoal 0 main\nt\nend", 4),
];

/// Invalid lines in the place of a goal, in line 2.
const GOALS: [&str; 30] = [
    "goal 00 main",
    "goal +0 main",
    "goal -0 main",
    "goal -1 main",
    "goal  main",
    "goal main",
    "goal 0",
    "goal 0 ",
    "goal 0 Main",
    "goal 0 maine",
    "goal 0  main",
    "goal 0 main ",
    " goal 0 main",
    "goal 0 main\r",
    "goal 4294967296 main",
    "goal 18446744073709551616 main",
    "goal 0 invariant",
    "goal 0 invariant ",
    "goal 0 invariant 01",
    "goal 0 invariant -1",
    "goal 0 invariant 4294967296",
    "goal 0 ranking",
    "goal 0 ranking 1 2",
    "goal 0 loop 1",
    "goal 0 main 1",
    "goal 0x main",
    "goal\t0 main",
    "Goal 0 main",
    "goal0 main",
    "goal 0 pre:",
];

/// Invalid lines in the place of a tree, in line 3.
const NODES: [&str; 36] = [
    "",
    "f",
    "f ",
    "f 0",
    "f 0:",
    "f :1",
    "f 0:0",
    "f 0:-1",
    "f 0:+1",
    "f -0:1",
    "f 0:01",
    "f 0:00",
    "f 00:1",
    "f 0:4611686018427387904",
    "f 0:18446744073709551616",
    "f 4294967296:1",
    "f 0:1 0:1",
    "f 1:1 0:1",
    "f 0:1 2:1 1:1",
    "f 0:1  1:1",
    "f 0:1 ",
    " f 0:1",
    "f  0:1",
    "f 0 :1",
    "f 0: 1",
    "f 0:1:2",
    "f 0:1,1:1",
    "f0:1",
    "F 0:1",
    "f 0:1\r",
    "t ",
    "T",
    "tt",
    "s ",
    "i 0 0",
    "goal 0 post",
];

/// Invalid integer splits in the place of a tree of version 2, in line 3.
const SPLITS: [&str; 34] = [
    "i",
    "i ",
    "i 0",
    "i 0 ",
    "i 0 -0",
    "i 0 +1",
    "i 0 01",
    "i 0 00",
    "i 0 -01",
    "i 0 --1",
    "i 0 -",
    "i 0 1-",
    "i 0 - 1",
    "i 0 1.0",
    "i 0 1/2",
    "i 0:1",
    "i 0 1 2",
    "i 0  1",
    "i  0 1",
    "i 0 1 ",
    " i 0 1",
    "i 0 1\r",
    "i\t0 1",
    "i 00 1",
    "i -0 1",
    "i -1 1",
    "i x 1",
    "i 4294967296 1",
    "i 0 4611686018427387904",
    "i 0 -4611686018427387904",
    "i 0 9223372036854775808",
    "i 0 18446744073709551617",
    "I 0 1",
    "ii 0 1",
];

/// Texts between the title and the end.
const MIDDLES: [(&str, u32); 22] = [
    ("goal 0 main\nt\ngoal 0 main\nt\n", 4),
    ("goal 1 main\nt\ngoal 0 main\nt\n", 4),
    ("goal 1 main\nt\ngoal 0 ranking 9\nt\n", 4),
    ("goal 0 post\nt\ngoal 0 main\nf 0:1\n", 4),
    ("goal 0 post\nt\ngoal 0 pre\nt\n", 4),
    ("goal 0 invariant 1\nt\ngoal 0 post\nt\n", 4),
    ("goal 0 invariant 2\nt\ngoal 0 invariant 1\nt\n", 4),
    ("goal 0 invariant 2\nt\ngoal 0 invariant 2\nt\n", 4),
    ("goal 0 ranking 1\nt\ngoal 0 invariant 2\nt\n", 4),
    ("goal 0 ranking 3\nt\ngoal 0 ranking 3\nt\n", 4),
    ("goal 0 main\nt\ngoal 1 main\nt\ngoal 0 post\nt\n", 6),
    ("goal 0 main\ns\nt\n", 5),
    ("goal 0 main\ns\nt\ngoal 1 main\nt\n", 5),
    ("goal 0 main\ns\ns\nt\nt\n", 7),
    ("goal 0 main\ns\nt\nt\nt\n", 6),
    ("goal 0 main\ns\nt\nf 0:0\n", 5),
    ("goal 0 main\nf 0:1\nf 0:1\n", 4),
    ("goal 0 main\ns\ncaesar certificate 1\nt\n", 4),
    ("goal 0 main\nt\n\n", 4),
    ("goal 0 main\ni 0 0\nt\nt\n", 3),
    ("goal 0 main\ns\ni 0 0\nt\nt\nt\n", 4),
    ("goal 0 main\nt\ngoal 1 main\ni 0 0\nt\nt\n", 5),
];

/// Returns whether `line` is the first invalid line of the text.
fn is_fault(alloc: Global, text: &str, line: u32) -> bool {
    if text.len() < 0x8000_0000 {
        match read_cert(alloc, text.as_bytes()) {
            Err(CertStop::Fault(found)) => found == line,
            _ => false,
        }
    } else {
        false
    }
}

fn check_texts(rt: &(impl Abort + AllocGlobal), rows: &[(&str, u32)]) {
    for (text, line) in rows {
        assert!(rt; is_fault(rt.alloc(), text, *line), "{text:?}");
    }
}

fn check_middles(rt: &(impl Abort + AllocGlobal), rows: &[(&str, u32)]) -> Result<(), AllocError> {
    for (middle, line) in rows {
        let text = format!(in rt.alloc(); "caesar certificate 1\n{middle}end\n")?;
        assert!(rt; is_fault(rt.alloc(), text.as_str(), *line), "{middle:?}");
    }
    Ok(())
}

fn check_lines(
    rt: &(impl Abort + AllocGlobal),
    before: &str,
    lines: &[&str],
    number: u32,
) -> Result<(), AllocError> {
    for line in lines {
        let text = format!(in rt.alloc(); "{before}{line}\nt\nend\n")?;
        assert!(rt; is_fault(rt.alloc(), text.as_str(), number), "{line:?}");
    }
    Ok(())
}

/// Returns a title, the first goal, a chain of `nodes` nodes with two subtrees, and a leaf for each
/// place that they leave open.
fn chain(alloc: Global, title: &str, node: &str, nodes: usize) -> Result<String, AllocError> {
    let mut text = format!(in alloc; "{title}goal 0 main\n")?;
    for place in 0..nodes {
        text.push_str(node)?;
    }
    for place in 0..nodes {
        text.push_str("t\n")?;
    }
    text.push_str("t\nend\n")?;
    Ok(text)
}

#[test]
fn broken_texts_are_refused_at_their_line(rt: HostRuntime) {
    check_texts(&rt, &TEXTS);
}

#[test]
fn broken_goals_are_refused(rt: HostRuntime) -> Result<(), Fail> {
    Ok(check_lines(&rt, "caesar certificate 1\n", &GOALS, 2)?)
}

#[test]
fn broken_nodes_are_refused(rt: HostRuntime) -> Result<(), Fail> {
    Ok(check_lines(&rt, "caesar certificate 1\ngoal 0 main\n", &NODES, 3)?)
}

#[test]
fn broken_splits_are_refused(rt: HostRuntime) -> Result<(), Fail> {
    Ok(check_lines(&rt, "caesar certificate 2\ngoal 0 main\n", &SPLITS, 3)?)
}

#[test]
fn broken_lists_and_trees_are_refused_at_their_line(rt: HostRuntime) -> Result<(), Fail> {
    Ok(check_middles(&rt, &MIDDLES)?)
}

#[test]
fn a_tree_too_deep_is_refused_at_its_last_node(rt: HostRuntime) -> Result<(), Fail> {
    for nodes in [1000, 1001, 3000] {
        let questions = chain(rt.alloc(), "caesar certificate 1\n", "s\n", nodes)?;
        assert!(rt; is_fault(rt.alloc(), questions.as_str(), 1002));
        let splits = chain(rt.alloc(), "caesar certificate 2\n", "i 3 -8\n", nodes)?;
        assert!(rt; is_fault(rt.alloc(), splits.as_str(), 1002));
    }
    Ok(())
}
