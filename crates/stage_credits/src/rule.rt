//! The rule of the table, and what each kind of step tells.

use crate::setup::Setup;
use crate::view::View;
use atomic_table::{Join, Play, Split, TableRule};

/// What holds of the counters and of all seats' views between any two steps.
pub struct CreditRule;

impl TableRule<u8, View, Setup> for CreditRule {
    ghost use Rattle.stage_credits.specs.Rule.{IsSound};
    ghost use Rattle.stage_credits.specs.Start.{first_view};

    ghost holds = { λ setup s. IsSound setup s.words s.views };

    ghost first = { first_view };
}

/// A load of any word.
pub(crate) struct Look;

impl Play<u8, View> for Look {
    ghost use Rattle.stage_credits.specs.Views.{LooksAt};

    ghost then = { LooksAt };
}

/// A `used` word goes up by 1.
pub(crate) struct Raise;

impl Play<u8, View> for Raise {
    ghost use Rattle.stage_credits.specs.Views.{ChargesAt};

    ghost then = { ChargesAt };
}

/// A `flying` word goes up by 1.
pub(crate) struct Post;

impl Play<u8, View> for Post {
    ghost use Rattle.stage_credits.specs.Views.{PostsAt};

    ghost then = { PostsAt };
}

/// A `flying` word goes down by 1.
pub(crate) struct Take;

impl Play<u8, View> for Take {
    ghost use Rattle.stage_credits.specs.Views.{PicksAt};

    ghost then = { PicksAt };
}

/// A `used` word goes down by 1.
pub(crate) struct Discharge;

impl Play<u8, View> for Discharge {
    ghost use Rattle.stage_credits.specs.Views.{DischargesAt};

    ghost then = { DischargesAt };
}

/// A load of a cursor.
pub(crate) struct Seek;

impl Play<u8, View> for Seek {
    ghost use Rattle.stage_credits.specs.Views.{SeeksAt};

    ghost then = { SeeksAt };
}

/// A cursor goes up.
pub(crate) struct Claim;

impl Play<u8, View> for Claim {
    ghost use Rattle.stage_credits.specs.Views.{ClaimsAt};

    ghost then = { ClaimsAt };
}

/// A number of enrolled workers goes down by 1.
pub(crate) struct Retire;

impl Play<u8, View> for Retire {
    ghost use Rattle.stage_credits.specs.Views.{RetiresAt};

    ghost then = { RetiresAt };
}

/// A load of a word that may be marked.
pub(crate) struct Check;

impl Play<u8, View> for Check {
    ghost use Rattle.stage_credits.specs.Views.{ChecksAt};

    ghost then = { ChecksAt };
}

/// A load of `closed`.
pub(crate) struct Sight;

impl Play<u8, View> for Sight {
    ghost use Rattle.stage_credits.specs.Views.{SeesAt};

    ghost then = { SeesAt };
}

/// `closed` goes up by 1.
pub(crate) struct Close;

impl Play<u8, View> for Close {
    ghost use Rattle.stage_credits.specs.Views.{ClosesAt};

    ghost then = { ClosesAt };
}

/// A worker's seat is cut off the seat that stands for all that are left.
pub(crate) struct OneOut;

impl Split<View> for OneOut {
    ghost use Rattle.stage_credits.specs.Start.{view_left, view_handed};

    ghost left = { view_left };

    ghost right = { view_handed };
}

/// A seat takes in what another one knows.
pub(crate) struct AllIn;

impl Join<View> for AllIn {
    ghost use Rattle.stage_credits.specs.Start.{joined_view, spent_view};

    ghost both = { joined_view };

    ghost spent = { spent_view };
}
