//! Why a query isn't answered, by number and place.
ghost use Rattle.std.specs.Prelude.{◌≡◌, ◌≢◌, IfOk, IsOk, Ok};
ghost use Rattle.query_replies.specs.Faults as spec;
ghost use Rattle.result_collect.specs.Refusals.{IsNamed};

use adfs_base::NoMemory;
use pgql_lexer::LexFault;
use pgql_syntax::SyntaxFault;
use result_collect::Refusal;
use typed_expr::TypeFault;

fn at(code: u32, at: u32) -> Result<Refusal, NoMemory>
    ensures { result ≡ Ok (Refusal.At code at) }
{
    Ok(Refusal::At { code, at })
}

fn refusal_of_lex(fault: LexFault) -> Result<Refusal, NoMemory>
    ensures ok { IfOk result (λ refusal. refusal ≡ spec.refusal_of_lex fault) }
    ensures named { IfOk result IsNamed }
    ensures memory { IfOk result (λ refusal. fault ≢ LexFault.NoMemory) }
    ensures told { fault ≢ LexFault.NoMemory → IsOk result }
{
    match fault {
        LexFault::BadCharacter(place) => at(10, place),
        LexFault::OpenText(place) => at(11, place),
        LexFault::OpenComment(place) => at(12, place),
        LexFault::WideNumber(place) => at(13, place),
        LexFault::NoMemory => Err(NoMemory),
    }
}

/// The refusal of a text that has no tree. `NoMemory` where memory ran out, and only there.
pub fn refusal_of_syntax(fault: SyntaxFault) -> Result<Refusal, NoMemory>
    ensures ok { IfOk result (λ refusal. refusal ≡ spec.refusal_of_syntax fault) }
    ensures named { IfOk result IsNamed }
    ensures memory { IfOk result (λ refusal. fault ≢ SyntaxFault.NoMemory) }
    ensures told { fault ≢ SyntaxFault.NoMemory → fault ≢ SyntaxFault.Lex LexFault.NoMemory → IsOk result }
{
    match fault {
        SyntaxFault::Lex(fault) => refusal_of_lex(fault),
        SyntaxFault::Unexpected(place) => at(14, place),
        SyntaxFault::Deep(place) => at(15, place),
        SyntaxFault::NoMemory => Err(NoMemory),
    }
}

/// The refusal of a tree that means nothing. `NoMemory` where memory ran out, and only there.
pub fn refusal_of_typing(fault: TypeFault) -> Result<Refusal, NoMemory>
    ensures ok { IfOk result (λ refusal. refusal ≡ spec.refusal_of_typing fault) }
    ensures named { IfOk result IsNamed }
    ensures memory { IfOk result (λ refusal. fault ≢ TypeFault.NoMemory) }
    ensures told { fault ≢ TypeFault.NoMemory → IsOk result }
{
    match fault {
        TypeFault::UnknownName(place) => at(40, place),
        TypeFault::UnknownProperty(place) => at(41, place),
        TypeFault::KindMismatch(place) => at(42, place),
        TypeFault::DoubleName(place) => at(43, place),
        TypeFault::TooManyVariables(place) => at(44, place),
        TypeFault::Disconnected(place) => at(45, place),
        TypeFault::VariableKind(place) => at(46, place),
        TypeFault::KeyNotSelected(place) => at(48, place),
        TypeFault::BadDate(place) => at(49, place),
        TypeFault::NoMemory => Err(NoMemory),
    }
}
