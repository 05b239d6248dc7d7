//! Closure windows of an arc.
ghost use Rattle.std.specs.Prelude.{◌≡◌, ◌≤◌, insert, length, nat_lt};
ghost use Rattle.std.specs.List.{list_any, position};
ghost use Rattle.evac_law.specs.Windows.{is_closed_at, is_same_window, overlaps, window_of, with_window};

/// The moments from one on and before another, at which nobody may enter an arc.
#[derive(Clone, Copy, Default)]
pub struct Window {
    pub from: u16,
    pub until: u16,
}

/// Whether a moment lies in one of some windows.
pub(crate) fn is_closed(windows: &[Window], moment: u16) -> bool
    ensures { result ≡ is_closed_at windows.now moment }
{
    windows.iter().any(|w| w.from <= moment && moment < w.until)
}

/// Whether one of some windows shares a moment with another.
pub(crate) fn overlap(windows: &[Window], window: Window) -> bool
    ensures { result ≡ list_any (λ v. overlaps v window) windows.now }
{
    windows
        .iter()
        .any(|v| v.from < window.until && window.from < v.until)
}

// The place of the first of some windows that begins after a moment.
fn first_later(windows: &[Window], moment: u16) -> Option<usize>
    ensures { result ≡ position (λ v. nat_lt moment v.from) windows.now }
{
    windows.iter().position(|v| moment < v.from)
}

/// The place at which a window stands in its order among others.
pub(crate) fn place_for(windows: &[Window], window: Window) -> usize
    ensures in_range { result ≤ length windows.now }
    ensures ordered { insert windows.now result window ≡ with_window windows.now window }
{
    match first_later(windows, window.from) {
        Some(place) => place,
        None => windows.len(),
    }
}

/// The place of the window of two numbers.
pub(crate) fn place_of(windows: &[Window], from: u32, until: u32) -> Option<usize>
    ensures { result ≡ position (λ v. is_same_window v (window_of from until)) windows.now }
{
    windows.iter().position(|v| u32::from(v.from) == from && u32::from(v.until) == until)
}
