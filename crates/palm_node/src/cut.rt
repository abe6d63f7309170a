// How a list is cut into pieces of nearly one length, none longer than a width: the longer ones come first.
ghost use Rattle.std.specs.Prelude.{◌≡◌, ◌<◌, ◌≤◌};
ghost use Rattle.palm_base.specs.Cut as cut;

/// How many pieces a list of `t` items is cut into, none longer than `width`.
pub fn pieces(width: usize, t: usize) -> usize
    requires { 1 ≤ width }
    ensures { result ≡ cut.piece_count width t }
{
    t.div_ceil(width)
}

/// How many items the piece at a place has, counted from 0, where `t` items are cut at a width.
pub fn piece_size(width: usize, t: usize, i: usize) -> usize
    requires width { 1 ≤ width }
    requires inside { i < cut.piece_count width t }
    ensures { result ≡ cut.piece_size width t i }
{
    let count = pieces(width, t);
    let size = t / count;
    if i < t % count { size + 1 } else { size }
}
