//! The view that a caller asks for.

use ec_draw::NameFilter;
use evc_draw_cli::{Form, Range};

/// What is drawn of a trace or of histories, and in which format.
#[derive(Clone, Copy)]
pub struct View<'a> {
    pub form: Form,
    pub range: Range,
    pub choice: NameFilter<'a>,
}
