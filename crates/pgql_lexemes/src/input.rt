//! A cursor over tokens.

ghost use Rattle.std.specs.Prelude.{◌≡◌, ◌<◌, ◌+◌, ◌^◌, List, OnOk, IfOk, IsOk, length, true};
ghost use Rattle.std.specs.Option.{option_map};
ghost use Rattle.pgql_lexer.specs.Tokens.{tokens};
ghost use Rattle.pgql_lexemes.specs.Lexemes.{place, is_word};
ghost use Rattle.pgql_lexemes.specs.Seen.{lexemes};
ghost use Rattle.pgql_lexemes.specs.Parsers as spec;
ghost use Rattle.pgql_lexemes.specs.Lists as lists;
ghost use Rattle.pgql_lexemes.specs.Reads.{Reads};
ghost use Rattle.pgql_lexemes.specs.Told.{told, ReadsToken};

use crate::kind::Kind;
use crate::lexeme::Lexeme;
use crate::seen::lexeme;
use adfs_base::NoMemory;
use pgql_lexer::first_token;
use std::alloc::AllocError;
use std::marker::Model;

/// Why reading stops. The place is that of the next token.
#[derive(Clone, Copy)]
pub enum Stop {
    Unexpected,
    Deep,
    NoMemory,
}

/// A cursor over the tokens of a text that has tokens. A contract sees the list of those that are left.
///
/// No list of tokens is kept: each is read when the one before it is taken.
#[derive(Drop)]
pub struct Input<'a> {
    // The next token.
    next: Option<Lexeme<'a>>,
    // The text after it, and where that begins.
    rest: &'a [u8],
    place: u32,
}

impl<'a> Model for Input<'a> {
    ghost use Rattle.std.specs.Prelude.{◌<◌, ◌+◌, ◌^◌, List, IsOk, length};
    ghost use Rattle.std.specs.Option.{option_map};
    ghost use Rattle.pgql_lexer.specs.Tokens.{tokens};
    ghost use Rattle.pgql_lexemes.specs.Lexemes.{Lexeme};
    ghost use Rattle.pgql_lexemes.specs.Seen.{lexemes, onto};
    ghost use Rattle.pgql_lexemes.specs.Told.{told};

    ghost Value = { List Lexeme };

    ghost view = { λ i. onto (option_map told i.next) (lexemes i.place i.rest.now) };

    ghost invariant = { λ i. (i.place + length i.rest.now < 2 ^ 32) × IsOk (tokens i.place i.rest.now) };
}

impl<'a> Input<'a> {
    /// The tokens of a text whose first byte stands at `base` in its file.
    pub fn new(text: &'a [u8], base: u32) -> Input<'a>
        requires short { base + length text.now < 2 ^ 32 }
        requires lexed { IsOk (tokens base text.now) }
        ensures { result ≡ lexemes base text.now }
    {
        match first_token(text, base) {
            None => Input {
                next: None,
                rest: &[],
                place: base,
            },
            Some(token) => Input {
                next: Some(lexeme(text, base, token)),
                rest: &text[(token.end - base) as usize..],
                place: token.end,
            },
        }
    }

    /// The next token.
    pub fn first(&self) -> Option<Lexeme<'a>>
        ensures { option_map told result ≡ spec.first self.now }
    {
        self.next
    }

    /// The place of the next token, 0 at the end.
    pub fn place(&self) -> u32
        ensures { result ≡ place self.now }
    {
        match self.next {
            None => 0,
            Some(first) => first.at,
        }
    }

    /// Takes the next token.
    pub fn take(&mut self) -> Result<Lexeme<'a>, Stop>
        ensures { ReadsToken (spec.take_token self.old) result self.new }
    {
        match self.next {
            None => Err(Stop::Unexpected),
            Some(first) => {
                *self = Input::new(self.rest, self.place);
                Ok(first)
            }
        }
    }

    /// Whether a token of this kind comes next.
    pub fn sees(&self, kind: Kind) -> bool
        ensures { result ≡ lists.sees kind self.now }
    {
        match self.next {
            None => false,
            Some(first) => same_kind(first.kind, kind),
        }
    }

    /// Takes the next token, if it is of this kind, and says whether it was.
    pub fn eat(&mut self, kind: Kind) -> bool
        ensures found { result ≡ lists.sees kind self.old }
        ensures after { self.new ≡ lists.after kind self.old }
    {
        let found = self.sees(kind);
        if found {
            *self = Input::new(self.rest, self.place);
        }
        found
    }

    /// Takes a token of this kind.
    #[tactic(auto, unfolding(crate::specs::Parsers::expect))]
    pub fn expect(&mut self, kind: Kind) -> Result<Lexeme<'a>, Stop>
        ensures reads { ReadsToken (spec.expect kind self.old) result self.new }
        ensures kind { IfOk result (λ t. t.kind ≡ kind) }
    {
        match self.first() {
            None => Err(Stop::Unexpected),
            Some(t) => {
                if same_kind(t.kind, kind) {
                    self.take()
                } else {
                    Err(Stop::Unexpected)
                }
            }
        }
    }

    /// Takes a word.
    #[tactic(auto, unfolding(crate::specs::Parsers::expect_word))]
    pub fn expect_word(&mut self) -> Result<Lexeme<'a>, Stop>
        ensures reads { ReadsToken (spec.expect_word self.old) result self.new }
        ensures word { IfOk result (λ t. is_word t.kind ≡ true) }
    {
        match self.first() {
            None => Err(Stop::Unexpected),
            Some(t) => {
                if t.kind.is_word() {
                    self.take()
                } else {
                    Err(Stop::Unexpected)
                }
            }
        }
    }
}

#[tactic(auto, unfolding(crate::specs::Parsers::same_kind))]
pub fn same_kind(a: Kind, b: Kind) -> bool
    ensures { result ≡ spec.same_kind a b }
{
    a == b
}

/// Whether what is this high may have one level more above it.
#[tactic(auto, unfolding(crate::specs::Parsers::deeper))]
pub fn deeper(most: u32, height: u32, input: &Input<'_>) -> Result<(), Stop>
    ensures reads { Reads (spec.deeper most height input.now) result input.now }
    ensures low { OnOk result (height < most) }
{
    if height < most {
        Ok(())
    } else {
        Err(Stop::Deep)
    }
}

impl From<AllocError> for Stop {
    ghost use Rattle.std.specs.Prelude.{◌≡◌};
    ghost use Rattle.pgql_lexemes.specs.declared.input.Stop.TheVariants.{NoMemory};

    ghost from_gives = { λ _ e. e ≡ NoMemory };

    fn from(_: AllocError) -> Stop {
        Stop::NoMemory
    }
}

impl From<NoMemory> for Stop {
    ghost use Rattle.std.specs.Prelude.{◌≡◌};
    ghost use Rattle.pgql_lexemes.specs.declared.input.Stop.TheVariants.{NoMemory};

    ghost from_gives = { λ _ e. e ≡ NoMemory };

    fn from(_: NoMemory) -> Stop {
        Stop::NoMemory
    }
}
