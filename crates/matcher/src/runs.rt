// Runs of label bytes.
ghost use Rattle.std.specs.Prelude.{◌≡◌, false, not, cond, ◌+◌, ◌-◌, ◌<◌, ◌≤◌, eqb, length, get_or};
ghost use Rattle.glob.specs.Inner.{Skipped};
ghost use Rattle.matcher.specs.Bytes.{label_byte, LabelAt};
ghost use Rattle.matcher.specs.Form.{apart};

use crate::bytes::label_byte;

// May the byte at i stand before the next, where only label bytes and single marks may? The table comes first: nearly every byte is a label byte.
fn may_stand(s: &[u8], i: usize, mark: u8) -> bool
    requires { (label_byte mark ≡ false) × (1 ≤ mark) × (i < length s.now) }
    ensures { result ≡ cond (eqb (get_or s.now i 0) mark) (not (eqb (get_or s.now (i + 1) 0) mark)) (label_byte (get_or s.now i 0)) }
{
    if label_byte(s[i]) {
        return true;
    }
    s[i] == mark && s.get(i + 1) != Some(&mark)
}

// Passes over label bytes from i on: at most four, and none where no more than four bytes are left. Four tests by hand: the form of a path of 200 bytes
// takes twice as long by `position` over the four, and 17 % longer by a `for`.
fn label_end(s: &[u8], i: usize) -> usize
    requires { i < length s.now }
    ensures { Skipped (LabelAt s.now) (length s.now - 1) i result × (result < length s.now) }
{
    if s.len() <= i + 4 {
        return i; // a few are left
    }
    if !label_byte(s[i]) {
        return i;
    }
    if !label_byte(s[i + 1]) {
        return i + 1;
    }
    if !label_byte(s[i + 2]) {
        return i + 2;
    }
    if !label_byte(s[i + 3]) {
        return i + 3;
    }
    i + 4
}

// Are these label bytes and marks, of which no two stand together? A mark is no label byte. A turn takes up to four label bytes and the byte behind them.
pub(crate) fn are_apart(s: &[u8], mark: u8) -> bool
    requires { (label_byte mark ≡ false) × (1 ≤ mark) }
    ensures { result ≡ apart mark s.now }
{
    let mut i = 0;
    // No `for`: a turn takes up to five bytes.
    while i < s.len() {
        let end = label_end(s, i);
        if !may_stand(s, end, mark) {
            return false;
        }
        i = end + 1;
    }
    true
}
