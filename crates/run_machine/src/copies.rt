//! Copies of configurations.

ghost use Rattle.std.specs.Prelude.{◌≡◌, IfOk, map, drop};
ghost use Rattle.run_machine.specs.Names.{stored, lists_of};

use crate::configurations::{Config, Frame, Item};
use std::alloc::{AllocError, Global};

/// Returns copies of the frames, in their order.
pub(crate) fn copy_frames(alloc: Global, frames: &[Frame]) -> Result<Vec<Frame>, AllocError>
    ensures { IfOk result (λ copied. map lists_of copied.items ≡ map lists_of frames.now) }
{
    let mut copied = Vec::with_capacity(alloc, frames.len())?;
    for frame in frames {
        copied.push(copy_frame(alloc, frame)?)?;
    }
    Ok(copied)
}

fn copy_frame(alloc: Global, frame: &Frame) -> Result<Frame, AllocError>
    ensures { IfOk result (λ copied. lists_of copied ≡ lists_of frame.now) }
{
    Ok(Frame {
        items: Vec::from_slice(alloc, &frame.items)?,
        state: Vec::from_slice(alloc, &frame.state)?,
    })
}

/// Returns `config` with other items.
pub(crate) fn with_items(
    alloc: Global,
    config: &Config,
    items: Vec<Item>,
) -> Result<Config, AllocError>
    ensures { IfOk result (λ next. stored next
        ≡ record (stored config.now) { items = items.items }) }
{
    Ok(Config {
        proc: config.proc,
        items,
        state: Vec::from_slice(alloc, &config.state)?,
        frames: copy_frames(alloc, &config.frames)?,
        reward: config.reward,
        turns: Vec::from_slice(alloc, &config.turns)?,
        made: config.made,
    })
}

/// Returns `config` without its first item.
pub(crate) fn without_first(alloc: Global, config: &Config) -> Result<Config, AllocError>
    ensures { IfOk result (λ next. stored next
        ≡ record (stored config.now) { items = drop 1 config.now.items.items }) }
{
    let items = Vec::from_slice(alloc, rest_of(config))?;
    with_items(alloc, config, items)
}

/// Returns the items after the first.
pub(crate) fn rest_of(config: &Config) -> &[Item]
    ensures { result.now ≡ drop 1 config.now.items.items }
{
    match config.items.split_first() {
        Some((_, rest)) => rest,
        None => &[],
    }
}
