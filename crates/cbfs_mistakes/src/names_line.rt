//! A line of names.

ghost use Rattle.std.specs.Prelude.{◌≡◌, ◌++◌, OnOk, map};
ghost use Rattle.std.specs.Fmt.{decimal};
ghost use Rattle.flash_format.specs.Texts.{printed_name};
ghost use Rattle.cbfs_mistakes.specs.NameLines.{joined, names_line, others_text};

use flash_format::printed_byte;
use itoa::Buffer;
use std::alloc::AllocError;

/// The maximum number of names in a line.
const MOST_LISTED: usize = 16;

fn push_name(out: &mut Vec<u8>, name: &[u8]) -> Result<(), AllocError>
    ensures { OnOk result (out.new.items ≡ out.old.items ++ printed_name name.now) }
{
    for byte in name {
        out.extend_from_slice(printed_byte(*byte).as_slice())?;
    }
    Ok(())
}

/// Appends names with a comma and a blank between two.
fn push_joined(out: &mut Vec<u8>, names: &[Vec<u8>]) -> Result<(), AllocError>
    ensures { OnOk result
        (out.new.items ≡ out.old.items ++ joined (map (λ name. name.items) names.now)) }
{
    let Some((first, others)) = names.split_first() else {
        return Ok(());
    };
    push_name(out, first)?;
    for name in others {
        out.extend_from_slice(b", ")?;
        push_name(out, name)?;
    }
    Ok(())
}

/// Appends the number of the remaining names, if any.
fn push_others(out: &mut Vec<u8>, count: usize) -> Result<(), AllocError>
    ensures { OnOk result (out.new.items ≡ out.old.items ++ others_text count) }
{
    if count == 0 {
        return Ok(());
    }
    let mut buffer = Buffer::new();
    out.extend_from_slice(b" and ")?;
    out.extend_from_slice(buffer.format(count).as_bytes())?;
    out.extend_from_slice(b" more")
}

/// Appends a line with the first 16 names after a text, and the number of the others. Without
/// names, nothing is appended.
pub fn push_names(out: &mut Vec<u8>, before: &str, names: &[Vec<u8>]) -> Result<(), AllocError>
    ensures { OnOk result (out.new.items
        ≡ out.old.items ++ names_line before.now (map (λ name. name.items) names.now)) }
{
    if names.is_empty() {
        return Ok(());
    }
    let listed = names.len().min(MOST_LISTED);
    out.extend_from_slice(before.as_bytes())?;
    push_joined(out, &names[..listed])?;
    push_others(out, names.len() - listed)?;
    out.extend_from_slice(b"\n")
}
