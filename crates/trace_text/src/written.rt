//! The first lines of a trace, written.
ghost use Rattle.std.specs.Prelude.{◌≡◌, ◌++◌, ◌∷◌, [], OnOk, codes};
ghost use Rattle.trace_text.specs.Headers.{header_lines, part_text, shape_text, with_feeds};

use crate::header::Header;
use crate::number::put_next;
use adfs_base::{Name, NoMemory, PartWord};

// Writes a line of a word and a name.
fn put_name(word: &str, name: &Name, out: &mut Vec<u8>) -> Result<(), NoMemory>
    ensures { OnOk result (out.new.items ≡ out.old.items ++ ((word.now ++ 32 ∷ name.now) ++ 10 ∷ [])) }
{
    out.extend_from_slice(word.as_bytes())?;
    out.push(b' ')?;
    out.extend_from_slice(name.text().as_bytes())?;
    out.push(b'\n')?;
    Ok(())
}

fn put_shape(header: &Header, out: &mut Vec<u8>) -> Result<(), NoMemory>
    ensures { OnOk result (out.new.items ≡ out.old.items ++ ((codes "shape" ++ shape_text header.now) ++ 10 ∷ [])) }
{
    out.extend_from_slice(b"shape")?;
    put_next(header.machines, out)?;
    put_next(header.workers, out)?;
    put_next(header.credits, out)?;
    put_next(header.broad, out)?;
    put_next(header.buffer, out)?;
    out.push(b'\n')?;
    Ok(())
}

fn put_part_text(part: &PartWord, out: &mut Vec<u8>) -> Result<(), NoMemory>
    ensures { OnOk result (out.new.items ≡ out.old.items ++ part_text part.now) }
{
    match part {
        PartWord::Modulo => out.extend_from_slice(b"modulo")?,
        PartWord::Block => out.extend_from_slice(b"block")?,
        PartWord::Listed(file) => {
            out.extend_from_slice(b"listed:")?;
            out.extend_from_slice(file.text().as_bytes())?;
        }
    }
    Ok(())
}

fn put_part(part: &PartWord, out: &mut Vec<u8>) -> Result<(), NoMemory>
    ensures { OnOk result (out.new.items ≡ out.old.items ++ ((codes "part" ++ 32 ∷ part_text part.now) ++ 10 ∷ [])) }
{
    out.extend_from_slice(b"part ")?;
    put_part_text(part, out)?;
    out.push(b'\n')?;
    Ok(())
}

/// Writes the five lines after what is there.
///
/// After `NoMemory` a front of them may stand there, so what was written is of no use.
pub fn put_header(header: &Header, out: &mut Vec<u8>) -> Result<(), NoMemory>
    ensures { OnOk result (out.new.items ≡ out.old.items ++ with_feeds (header_lines header.now)) }
{
    out.extend_from_slice(b"adfs-trace 1\n")?;
    put_name("manifest", &header.manifest, out)?;
    put_name("queries", &header.queries, out)?;
    put_shape(header, out)?;
    put_part(&header.part, out)?;
    Ok(())
}
