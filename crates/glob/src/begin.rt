// Can labels, of which the last may go on, fit a pattern?
ghost use Rattle.std.specs.Prelude.{◌≡◌, true, List, ℕ};
ghost use Rattle.glob.specs.Labels.{labels_of};
ghost use Rattle.glob.specs.Begins.{begins_label, begins_labels};

use crate::bytes::STAR;
use crate::fit::label_fits;
use crate::labels::Labels;
use crate::split::is_deep;

// Can a label that begins with k fit a label of a pattern?
fn label_begins(p: &[u8], k: &[u8]) -> bool
    ensures { result ≡ begins_label p.now k.now }
{
    match (p.first(), k.first()) {
        (None, _) => k.is_empty(),
        (Some(&STAR), _) => true,
        (Some(_), None) => true,
        (Some(c), Some(d)) => c == d && label_begins(&p[1..], &k[1..]),
    }
}

// Can labels, of which the last may go on, fit the pattern that remains?
fn labels_begin(pattern: Labels<'_>, known: Labels<'_>) -> bool
    ensures { result ≡ begins_labels (labels_of pattern.entry.bytes.now) (labels_of known.entry.bytes.now) }
{
    if pattern.is_empty() {
        return known.is_empty();
    }
    if known.bytes.len() < 2 {
        return true; // at most a `/` is known, and any label may follow
    }
    let (p, behind) = pattern.split_first();
    if is_deep(p) {
        return true;
    }
    let (k, more) = known.split_first();
    if more.is_empty() {
        return label_begins(p, k);
    }
    label_fits(p, k) && labels_begin(behind, more)
}

// Is the first label of a pattern a `**`, with others behind it? Then any labels can go on to fit. Four bytes tell, without a label being cut off: a search
// may ask it of each child.
fn leads_deep(pattern: &[u8]) -> bool
    ensures { result ≡ true → (ks : List (List ℕ)) → begins_labels (labels_of pattern.now) ks ≡ true }
{
    pattern.starts_with(b"/**/")
}

// Can labels, of which the last may go on, fit those of a pattern? Nothing is checked: of any bytes it answers by their labels, which begin at
// the first `/`.
pub fn begins_formed(pattern: &[u8], known: &[u8]) -> bool
    ensures { result ≡ begins_labels (labels_of pattern.now) (labels_of known.now) }
{
    if leads_deep(pattern) {
        return true;
    }
    labels_begin(Labels::new(pattern), Labels::new(known))
}
