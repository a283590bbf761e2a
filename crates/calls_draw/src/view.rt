//! The view of a history that a caller asks for.

/// The format of a picture.
#[derive(Clone, Copy, Debug, PartialEq, Eq)]
pub enum Form {
    /// As SVG.
    Svg,
    /// As a text for a terminal.
    Text,
}

/// What is drawn of a history, and in which format.
#[derive(Clone, Copy)]
pub struct CallsView<'a> {
    /// The first event that is shown, counted from 0; none: shortly before the evidence of a long
    /// history that is rejected, otherwise 0. At most the last `EVENTS_MAX` up to `to` are shown.
    pub from: Option<usize>,
    /// The last event that is shown; none: the last one there is.
    pub to: Option<usize>,
    /// The workers that are shown; none: all.
    pub workers: &'a [&'a str],
    /// The objects that are shown; none: all.
    pub objects: &'a [&'a str],
    /// The format of the picture.
    pub form: Form,
    /// What is written before the picture, and after it.
    pub before: &'a str,
    pub after: &'a str,
}

/// Some consecutive events, by their positions.
#[derive(Clone, Copy, Debug, PartialEq, Eq)]
pub(crate) struct Window {
    /// The position of the first.
    pub(crate) from: usize,
    /// The position after the last.
    pub(crate) to: usize,
}

/// The most events that a picture has.
pub const EVENTS_MAX: usize = 400;

impl Window {
    /// Returns how many events there are.
    pub(crate) fn len(self) -> usize {
        self.to.saturating_sub(self.from)
    }

    /// Returns whether a call from one position to another overlaps it.
    pub(crate) fn meets(self, first: usize, last: usize) -> bool {
        first < self.to && self.from <= last
    }

    /// Returns whether a point lies within: before an event of it, or after the last one.
    pub(crate) fn has_point(self, point: usize) -> bool {
        self.from <= point && point <= self.to
    }
}

/// Returns the events that are shown out of `count`, from `usual` on if the view has no first one.
/// At most the last `EVENTS_MAX` are shown.
pub(crate) fn window_of(view: &CallsView<'_>, count: usize, usual: usize) -> Window {
    let to = match view.to {
        Some(last) => last.saturating_add(1).min(count),
        None => count,
    };
    let from = match view.from {
        Some(from) => from.min(to),
        None => usual.min(to),
    };
    Window {
        from: from.max(to.saturating_sub(EVENTS_MAX)),
        to,
    }
}
