//! The periods that are in some span, by a list that says for each period how far the spans reach that begin there: the greatest end
//! of these, or 0.
ghost use Rattle.std.specs.Prelude.{◌≡◌, ℕ, ◌<◌, ◌≤◌, ◌||◌, IsFalse, length, slice_index_or};
ghost use Rattle.std.specs.List.{filter};
ghost use Rattle.evac_law.specs.Sums.{below};
ghost use Rattle.cut_witness.specs.Changes.{in_span};
ghost use Rattle.bottleneck_report.specs.Covers.{covers};

use cut_witness::Span;

// Leaves zeros.
fn blank(list: &mut [u16])
    ensures zeros { (f : ℕ) → slice_index_or list.new f 0 ≡ 0 }
    ensures size { length list.new ≡ length list.old }
{
    list.fill(0);
}

/// Leaves no span.
pub fn clear(ends: &mut [u16])
    ensures none { (k : ℕ) → IsFalse (covers ends.new k) }
    ensures size { length ends.new ≡ length ends.old }
{
    blank(ends);
}

/// Adds a span.
pub fn add(ends: &mut [u16], span: Span)
    ensures covered { (k : ℕ) → k < length ends.old → covers ends.new k ≡ (covers ends.old k || in_span span k) }
    ensures size { length ends.new ≡ length ends.old }
{
    let place = usize::from(span.from);
    if place < ends.len() {
        ends[place] = ends[place].max(span.to);
    }
}

/// How many periods before one are in a span.
pub fn count(ends: &[u16], until: u16) -> u32
    requires { until ≤ length ends.now }
    ensures { result ≡ length (filter (covers ends.now) (below until)) }
{
    let mut count = 0u32;
    let mut far = 0u16;
    for period in 0..until {
        far = far.max(ends[usize::from(period)]);
        if period < far {
            count += 1;
        }
    }
    count
}
