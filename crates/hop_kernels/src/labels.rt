//! Whether labels are those of a pattern.
ghost use Rattle.std.specs.Prelude.{◌≡◌, ◌<◌, ℕ, List, ◌∷◌, [], length};
ghost use Rattle.std.specs.List.{list_any};
ghost use Rattle.std.specs.Str.{bytes_eq};
ghost use Rattle.value_text.specs.Texts.{text_at};
ghost use Rattle.pgql_meaning.specs.Fits.{is_in_lists};
ghost use Rattle.typed_expr.specs.declared.query.Query.{Query};
ghost use Rattle.plan_tree.specs.Answers.{labels_of};
ghost use Rattle.hop_kernels.specs.LabelTests.{AreTests, IsTestFor, fits};

use adfs_base::Name;
use sqlite_items::Items;
use typed_expr::Query;
use value_text::Texts;

/// What tells whether a label is in each list of a variable. A label is compared by its number where that is enough.
#[derive(Clone, Copy)]
pub(crate) enum LabelTest {
    /// There is no list: any label is right.
    Any,
    /// The one list has one label, of this number.
    One(u32),
    /// The one list has one label, which is no text of the graph.
    Never,
    /// The texts tell.
    Listed,
}

/// The most variables that a context has words for.
pub(crate) const MOST_VARIABLES: usize = 39;

fn is_in(label: &[u8], list: &Items<Name>) -> bool
    ensures { result ≡ list_any (bytes_eq label.now) list.now }
{
    list.as_slice()
        .iter()
        .any(|name| label == name.text().as_bytes())
}

fn is_in_lists(label: &[u8], lists: &[Items<Name>]) -> bool
    ensures { result ≡ is_in_lists label.now lists.now }
{
    lists.iter().all(|list| is_in(label, list))
}

// The bytes of a label; none where there is no such text.
fn label_text(texts: &Texts, label: u32) -> &[u8]
    ensures { result.now ≡ text_at texts.now label }
{
    if label < texts.len() {
        texts.get(label)
    } else {
        &[]
    }
}

// The label lists of a variable.
fn labels_of(query: &Query, variable: u32) -> &[Items<Name>]
    ensures { result.now ≡ labels_of query.now variable }
{
    match query.variables.as_slice().get(variable as usize) {
        Some(found) => found.labels.as_slice(),
        None => &[],
    }
}

// The test of one label.
fn test_of_name(texts: &Texts, name: &[u8]) -> LabelTest
    requires { 0 < length name.now }
    ensures { IsTestFor texts.now ((name.now ∷ []) ∷ []) result }
{
    // That the texts differ is said by their count.
    let _ = texts.len();
    match texts.find(name) {
        Some(number) => LabelTest::One(number),
        None => LabelTest::Never,
    }
}

// The test of one list.
fn test_of_list(texts: &Texts, list: &Items<Name>) -> LabelTest
    ensures { IsTestFor texts.now (list.now ∷ []) result }
{
    match list.as_slice() {
        [name] if !name.text().as_bytes().is_empty() => test_of_name(texts, name.text().as_bytes()),
        _ => LabelTest::Listed,
    }
}

// The test of a variable's lists.
fn test_of(texts: &Texts, lists: &[Items<Name>]) -> LabelTest
    ensures { IsTestFor texts.now lists.now result }
{
    match lists {
        [] => LabelTest::Any,
        [list] => test_of_list(texts, list),
        _ => LabelTest::Listed,
    }
}

/// The tests of a query's variables.
pub(crate) fn label_tests(query: &Query, texts: &Texts) -> [LabelTest; MOST_VARIABLES]
    ensures { AreTests texts.now query.now result }
{
    let mut tests = [LabelTest::Listed; MOST_VARIABLES];
    for variable in 0..39u32 {
        tests[variable as usize] = test_of(texts, labels_of(query, variable));
    }
    tests
}

/// Tests by the texts alone, for any query.
pub(crate) fn text_tests() -> [LabelTest; MOST_VARIABLES]
    ensures { (texts : List (List ℕ)) (query : Query) → AreTests texts query result }
{
    [LabelTest::Listed; MOST_VARIABLES]
}

/// Whether a label passes the test of a variable's lists.
pub(crate) fn passes_test(
    query: &Query,
    texts: &Texts,
    test: LabelTest,
    variable: u32,
    label: u32,
) -> bool
    ensures { result ≡ fits texts.now (labels_of query.now variable) test label }
{
    match test {
        LabelTest::Any => true,
        LabelTest::One(number) => label == number,
        LabelTest::Never => false,
        LabelTest::Listed => is_in_lists(label_text(texts, label), labels_of(query, variable)),
    }
}
