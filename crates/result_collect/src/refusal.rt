//! The line of a query that is refused.
ghost use Rattle.std.specs.Prelude.{◌≡◌, ◌++◌, OnOk, OnErr, IfOk};
ghost use Rattle.std.specs.String.{string_bytes};
ghost use Rattle.result_collect.specs.Refusals as spec;
ghost use Rattle.result_collect.specs.Refusals.{IsNamed, refusal_text};

use adfs_base::NoMemory;
use std::alloc::{AllocError, Global};

/// Why a query isn't answered.
#[derive(Clone, Copy, Debug, PartialEq, Eq)]
pub enum Refusal {
    /// By its text. The code is 10 to 15 where it can't be read, and 40 to 46, 48 or 49 where it means nothing;
    /// the place is the first byte of what is refused, in the file of queries. No other code has a line.
    At { code: u32, at: u32 },
    /// Its matches need so many words each.
    TooWide(u32),
    /// It needs so many buffers, more than the pool has.
    NeedsMore(u64, u64),
}

fn syntax_name(code: u32) -> &'static str
    ensures { result.now ≡ spec.syntax_name code }
{
    match code {
        10 => "BadCharacter",
        11 => "OpenText",
        12 => "OpenComment",
        13 => "WideNumber",
        14 => "Unexpected",
        _ => "Deep",
    }
}

fn typing_name(code: u32) -> &'static str
    ensures { result.now ≡ spec.typing_name code }
{
    match code {
        40 => "UnknownName",
        41 => "UnknownProperty",
        42 => "KindMismatch",
        43 => "DoubleName",
        44 => "TooManyVariables",
        45 => "Disconnected",
        46 => "VariableKind",
        48 => "KeyNotSelected",
        _ => "BadDate",
    }
}

fn name_of(code: u32) -> &'static str
    ensures { result.now ≡ spec.name_of code }
{
    if code < 40 {
        syntax_name(code)
    } else {
        typing_name(code)
    }
}

fn needs_more_line(alloc: Global, number: u32, need: u64, pool: u64) -> Result<String, AllocError>
    ensures { IfOk result (λ line. string_bytes line ≡ refusal_text number (Refusal.NeedsMore need pool)) }
{
    format!(in alloc; "query {number} refused 52 NeedsMore need {need} pool {pool}\n")
}

fn place_line(alloc: Global, number: u32, code: u32, at: u32) -> Result<String, AllocError>
    ensures { IfOk result (λ line. string_bytes line ≡ refusal_text number (Refusal.At code at)) }
{
    let name = name_of(code);
    format!(in alloc; "query {number} refused {code} {name} at {at}\n")
}

fn too_wide_line(alloc: Global, number: u32, words: u32) -> Result<String, AllocError>
    ensures { IfOk result (λ line. string_bytes line ≡ refusal_text number (Refusal.TooWide words)) }
{
    format!(in alloc; "query {number} refused 47 TooWide words {words}\n")
}

fn line(alloc: Global, number: u32, refusal: &Refusal) -> Result<String, AllocError>
    ensures { IfOk result (λ line. string_bytes line ≡ refusal_text number refusal.now) }
{
    match refusal {
        Refusal::At { code, at } => place_line(alloc, number, *code, *at),
        Refusal::TooWide(words) => too_wide_line(alloc, number, *words),
        Refusal::NeedsMore(need, pool) => needs_more_line(alloc, number, *need, *pool),
    }
}

/// Appends the line that tells why the query of this number isn't answered. After `NoMemory` the bytes are as
/// before.
pub fn put_refusal(
    alloc: Global,
    number: u32,
    refusal: &Refusal,
    out: &mut Vec<u8>,
) -> Result<(), NoMemory>
    requires { IsNamed refusal.now }
    ensures ok { OnOk result (out.new.items ≡ out.old.items ++ refusal_text number refusal.now) }
    ensures err { OnErr result (out.new.items ≡ out.old.items) }
{
    let line = line(alloc, number, refusal)?;
    out.extend_from_slice(line.as_bytes())?;
    Ok(())
}
