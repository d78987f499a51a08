//! The generated text.

ghost use Rattle.generated_files.specs.Texts as texts;
ghost use Rattle.std.specs.Prelude.{◌++◌, ◌≡◌, ◌≤◌, IfOk, OnOk, codes};

use itoa::Buffer;
use std::alloc::{AllocError, Global};

/// Appends the name of the procedure on line `i` to `text`.
fn write_name(text: &mut Vec<u8>, i: u32) -> Result<(), AllocError>
    ensures { OnOk result (text.new.items ≡ text.old.items ++ texts.name i) }
{
    let mut buffer = Buffer::new();
    text.extend_from_slice(b"g")?;
    Ok(text.extend_from_slice(buffer.format(i).as_bytes())?)
}

/// Appends `coproc` and the name of the procedure on line `i` to `text`.
fn write_head(text: &mut Vec<u8>, i: u32) -> Result<(), AllocError>
    ensures { OnOk result (text.new.items ≡ text.old.items ++ (codes "coproc " ++ texts.name i)) }
{
    text.extend_from_slice(b"coproc ")?;
    write_name(text, i)
}

/// Appends line `i` to `text` as a coin with this bound.
fn write_coin(text: &mut Vec<u8>, i: u32, bound: &[u8]) -> Result<(), AllocError>
    ensures { OnOk result (text.new.items ≡ text.old.items ++ texts.coin_line i bound.now) }
{
    write_head(text, i)?;
    text.extend_from_slice(b"() -> (b: Bool) pre ")?;
    text.extend_from_slice(bound)?;
    Ok(text.extend_from_slice(b" post [b] { b = flip(1/2) }\n")?)
}

/// Appends line `i` to `text` as a loop with its invariant.
fn write_loop(text: &mut Vec<u8>, i: u32) -> Result<(), AllocError>
    ensures { OnOk result (text.new.items ≡ text.old.items ++ texts.loop_line i) }
{
    write_head(text, i)?;
    text.extend_from_slice(
        b" ( init_c : UInt ) -> ( c : UInt ) pre init_c + 1 post c { c = init_c",
    )?;
    text.extend_from_slice(
        b" var cont : Bool = true @ invariant ( ite ( cont , c + 1 , c ) ) while cont {",
    )?;
    Ok(text.extend_from_slice(
        b" var stop : Bool = flip ( 0.5 ) if stop { cont = false } else { c = c + 1 } } }\n",
    )?)
}

/// Appends line `i` to `text` as a call of the procedure two lines before.
fn write_call(text: &mut Vec<u8>, i: u32) -> Result<(), AllocError>
    requires { 2 ≤ i }
    ensures { OnOk result (text.new.items ≡ text.old.items ++ texts.call_line i) }
{
    write_head(text, i)?;
    text.extend_from_slice(b"(init_c: UInt) -> (c: UInt) pre init_c + 1 post c { c = ")?;
    write_name(text, i - 2)?;
    Ok(text.extend_from_slice(b"(init_c) }\n")?)
}

/// Appends line `i` to `text`.
fn write_line(text: &mut Vec<u8>, i: u32) -> Result<(), AllocError>
    ensures { OnOk result (text.new.items ≡ text.old.items ++ texts.line i) }
{
    match i % 4 {
        0 => write_coin(text, i, b"1/2"),
        1 => write_loop(text, i),
        2 => write_coin(text, i, b"1/3"),
        _ => write_call(text, i),
    }
}

/// Returns the text of `lines` lines, with one procedure each.
pub fn generated_text(alloc: Global, lines: u32) -> Result<Vec<u8>, AllocError>
    ensures { IfOk result (λ text. text.items ≡ texts.generated_text lines) }
{
    let mut text = Vec::new(alloc);
    for i in 0..lines {
        write_line(&mut text, i)?;
    }
    Ok(text)
}
