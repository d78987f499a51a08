//! Copies of configurations.

ghost use Rattle.std.specs.Prelude.{◌≡◌, IfOk, map};
ghost use Rattle.run_machine.specs.Names.{lists_of, stored};

use run_machine::{Config, Frame};
use std::alloc::{AllocError, Global};

pub(crate) fn copy_config(alloc: Global, config: &Config) -> Result<Config, AllocError>
    ensures { IfOk result (λ copied. stored copied ≡ stored config.now) }
{
    Ok(Config {
        proc: config.proc,
        items: Vec::from_slice(alloc, &config.items)?,
        state: Vec::from_slice(alloc, &config.state)?,
        frames: copy_frames(alloc, &config.frames)?,
        reward: config.reward,
        turns: Vec::from_slice(alloc, &config.turns)?,
        made: config.made,
    })
}

/// Returns copies of the frames, in their order.
fn copy_frames(alloc: Global, frames: &[Frame]) -> Result<Vec<Frame>, AllocError>
    ensures { IfOk result (λ copied. map lists_of copied.items ≡ map lists_of frames.now) }
{
    let mut copied = Vec::with_capacity(alloc, frames.len())?;
    for frame in frames {
        copied.push(copy_frame(alloc, frame)?)?;
    }
    Ok(copied)
}

fn copy_frame(alloc: Global, frame: &Frame) -> Result<Frame, AllocError>
    ensures { IfOk result (λ copied. lists_of copied ≡ lists_of frame.now) }
{
    Ok(Frame {
        items: Vec::from_slice(alloc, &frame.items)?,
        state: Vec::from_slice(alloc, &frame.state)?,
    })
}
