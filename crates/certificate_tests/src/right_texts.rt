//! Texts that are read, and written again without a change.

use cert_text::{read_cert, write_cert};
use goal_answers::Tree;
use heylo_formula::GoalId;
use std::alloc::{AllocError, Global};
use std::test::Fail;

/// Texts between the title and the end, in version 1.
const MIDDLES: [&str; 12] = [
    "",
    "goal 0 main\nt\n",
    "goal 4294967295 ranking 4294967295\nt\n",
    "goal 0 main\nf 0:1\n",
    "goal 0 main\nf 0:1 2:1\n",
    "goal 0 main\nf 0:4611686018427387903 4294967295:9\n",
    "goal 0 main\ns\nt\nt\n",
    "goal 0 main\ns\ns\nt\nf 1:2\nf 0:1\n",
    "goal 0 main\ns\nt\ns\nt\ns\nf 10:20 30:40\nt\n",
    "goal 0 main\nt\ngoal 0 pre\nt\ngoal 0 post\nt\ngoal 0 invariant 1\nt\ngoal 0 invariant 2\nt\ngoal 0 ranking 1\nt\n",
    "goal 0 ranking 9\nt\ngoal 1 main\nt\n",
    "goal 7 invariant 10\ns\nt\nt\ngoal 8 main\nt\n",
];

/// Texts between the title and the end, in version 2.
const SPLIT_MIDDLES: [&str; 8] = [
    "goal 0 main\ni 0 0\nt\nt\n",
    "goal 0 main\ni 4294967295 4611686018427387903\nt\nf 0:1\n",
    "goal 0 main\ni 0 -4611686018427387903\nf 1:1\nf 1:1\n",
    "goal 0 main\ni 7 -1\ni 12 30\nt\nt\nt\n",
    "goal 0 main\ns\ns\ns\ni 0 0\nf 0:1 2:1 3:2\nf 1:1 2:1 3:2\nf 3:1\nf 2:1\nf 1:1\n",
    "goal 0 main\nt\ngoal 1 main\ni 0 10\nt\nt\n",
    "goal 0 main\ni 0 10\nt\nt\ngoal 1 main\nt\n",
    "goal 3 ranking 2\ns\nt\ni 2 9\ns\nt\nt\nt\n",
];

/// Returns whether the text is read, and written again without a change.
fn is_kept(alloc: Global, text: &str) -> Result<bool, AllocError> {
    if text.len() < 0x8000_0000 {
        match read_cert(alloc, text.as_bytes()) {
            Ok(certs) => Ok(write_cert(alloc, certs.as_slice())?.as_slice() == text.as_bytes()),
            Err(_) => Ok(false),
        }
    } else {
        Ok(false)
    }
}

#[test]
fn right_texts_are_written_as_they_were(rt: HostRuntime) -> Result<(), Fail> {
    for middle in &MIDDLES {
        let text = format!(in rt.alloc(); "caesar certificate 1\n{middle}end\n")?;
        assert!(rt; is_kept(rt.alloc(), text.as_str())?, "{middle:?}");
    }
    for middle in &SPLIT_MIDDLES {
        let text = format!(in rt.alloc(); "caesar certificate 2\n{middle}end\n")?;
        assert!(rt; is_kept(rt.alloc(), text.as_str())?, "{middle:?}");
    }
    Ok(())
}

#[test]
fn a_tree_of_a_thousand_nodes_deep_is_kept(rt: HostRuntime) -> Result<(), Fail> {
    for (title, node) in [
        ("caesar certificate 1\n", "s\n"),
        ("caesar certificate 2\n", "i 5 17\n"),
    ] {
        let mut text = format!(in rt.alloc(); "{title}goal 0 main\n")?;
        for place in 0..999 {
            text.push_str(node)?;
        }
        for place in 0..1000 {
            text.push_str("t\n")?;
        }
        text.push_str("end\n")?;
        assert!(rt; is_kept(rt.alloc(), text.as_str())?);
    }
    Ok(())
}

/// Returns whether the tree is a comparison with a leaf of one multiplier, then a leaf without
/// multipliers.
fn is_small_tree(tree: &Tree) -> bool {
    match tree {
        Tree::Split(holds, fails) => {
            matches!(
                &**holds,
                Tree::Farkas(multipliers) if multipliers.as_slice() == [(3, 5)].as_slice()
            ) && matches!(&**fails, Tree::Plain)
        }
        _ => false,
    }
}

#[test]
fn the_first_tree_is_where_the_atom_holds(rt: HostRuntime) -> Result<(), Fail> {
    let text = b"caesar certificate 1\ngoal 2 invariant 4\ns\nf 3:5\nt\nend\n";
    let certs = read_cert(rt.alloc(), text).ok();
    let right = match certs {
        Some(certs) => match certs.as_slice() {
            [cert] => cert.proc == 2
                && cert.id == GoalId::Invariant(4)
                && is_small_tree(&cert.tree),
            _ => false,
        },
        None => false,
    };
    assert!(rt; right);
    Ok(())
}

/// Returns whether the tree splits the variable 6 at -2, with a leaf without multipliers, then a
/// leaf of one multiplier.
fn is_small_split(tree: &Tree) -> bool {
    match tree {
        Tree::Whole(6, -2, most, more) => {
            matches!(&**most, Tree::Plain)
                && matches!(
                    &**more,
                    Tree::Farkas(multipliers) if multipliers.as_slice() == [(3, 5)].as_slice()
                )
        }
        _ => false,
    }
}

#[test]
fn the_first_tree_is_for_at_most_the_number(rt: HostRuntime) -> Result<(), Fail> {
    let text = b"caesar certificate 2\ngoal 2 invariant 4\ni 6 -2\nt\nf 3:5\nend\n";
    let certs = read_cert(rt.alloc(), text).ok();
    let right = match certs {
        Some(certs) => match certs.as_slice() {
            [cert] => cert.proc == 2
                && cert.id == GoalId::Invariant(4)
                && is_small_split(&cert.tree),
            _ => false,
        },
        None => false,
    };
    assert!(rt; right);
    Ok(())
}
