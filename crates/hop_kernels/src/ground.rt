//! What a kernel reads.
ghost use Rattle.std.specs.Prelude.{◌≡◌, ◌<◌, ◌≤◌, ◌==◌, ℕ, false, true, length, slice_index_or};
ghost use Rattle.std.proofs.Props.{props};
ghost use Rattle.value_text.specs.Texts.{text_at};
ghost use Rattle.pgql_meaning.specs.Fits.{is_in_lists};
ghost use Rattle.plan_tree.specs.Answers.{labels_of};
ghost use Rattle.partition.specs.declared.link.Link.{Link};
ghost use Rattle.hop_kernels.specs.LabelTests.{AreTests, is_labelled};

use crate::labels::{LabelTest, MOST_VARIABLES, passes_test};
use partition::{Link, Part};
use typed_expr::Query;
use value_text::Texts;

/// What a kernel reads: the query with the tests of its variables' labels, a machine's part, and the texts that both name.
#[derive(Drop)]
pub(crate) struct Ground<'a> {
    pub(crate) texts: &'a Texts,
    pub(crate) query: &'a Query,
    pub(crate) part: &'a Part,
    pub(crate) tests: &'a [LabelTest; MOST_VARIABLES],
    ghost tests_are: { AreTests texts.now query.now tests.now } by { Prim.hlevel props },
}

// The first entry from one on, below another, that has this label; that other, if none has it.
fn first_of_label(entries: &[Link], label: u32, from: usize, to: usize) -> usize
    requires rising { from ≤ to }
    requires within { to ≤ length entries.now }
    ensures rising { from ≤ result }
    ensures within { result ≤ to }
    ensures passed { (i : ℕ) (d : Link) → from ≤ i → i < result → ((slice_index_or entries.now i d).label == label) ≡ false }
    ensures found { (d : Link) → result < to → ((slice_index_or entries.now result d).label == label) ≡ true }
{
    let mut at = from;
    'looks: while at < to && entries[at].label != label {
        at += 1;
    }
    at
}

impl Ground<'_> {
    /// Whether the label of this number is in each of the lists of a variable.
    pub(crate) fn is_labelled(&self, variable: u32, label: u32) -> bool
        requires { variable < 39 }
        ensures { result ≡ is_in_lists (text_at self.now.texts.now label) (labels_of self.now.query.now variable) }
    {
        let test = self.tests[variable as usize];
        passes_test(self.query, self.texts, test, variable, label)
    }

    // The same as `next_labelled`, by the texts.
    fn next_listed(&self, variable: u32, entries: &[Link], from: usize, to: usize) -> usize
        requires there { variable < 39 }
        requires rising { from ≤ to }
        requires within { to ≤ length entries.now }
        ensures rising { from ≤ result }
        ensures within { result ≤ to }
        ensures passed { (i : ℕ) (d : Link) → from ≤ i → i < result → is_labelled self.now.texts.now self.now.query.now variable (slice_index_or entries.now i d) ≡ false }
        ensures found { (d : Link) → result < to → is_labelled self.now.texts.now self.now.query.now variable (slice_index_or entries.now result d) ≡ true }
    {
        let mut at = from;
        'looks: while at < to && !self.is_labelled(variable, entries[at].label) {
            at += 1;
        }
        at
    }

    /// The first entry from one on, below another, whose label is in each of the lists of a variable; that other, if
    /// none has such a label. Where the number of one label tells, nothing else is looked at.
    pub(crate) fn next_labelled(
        &self,
        variable: u32,
        entries: &[Link],
        from: usize,
        to: usize,
    ) -> usize
        requires there { variable < 39 }
        requires rising { from ≤ to }
        requires within { to ≤ length entries.now }
        ensures rising { from ≤ result }
        ensures within { result ≤ to }
        ensures passed { (i : ℕ) (d : Link) → from ≤ i → i < result → is_labelled self.now.texts.now self.now.query.now variable (slice_index_or entries.now i d) ≡ false }
        ensures found { (d : Link) → result < to → is_labelled self.now.texts.now self.now.query.now variable (slice_index_or entries.now result d) ≡ true }
    {
        match self.tests[variable as usize] {
            LabelTest::Any => from,
            LabelTest::One(label) => first_of_label(entries, label, from, to),
            LabelTest::Never => to,
            LabelTest::Listed => self.next_listed(variable, entries, from, to),
        }
    }
}
