//! The format of a text.
ghost use Rattle.std.specs.Prelude.{◌≡◌};
ghost use Rattle.evc_explain_engine.specs.Forms.{form_of};

/// The format that a text has, or is meant to have.
#[derive(Clone, Copy, Debug, PartialEq, Eq)]
pub(crate) enum Form {
    Trace,
    Script,
    Calls,
}

/// Returns the format that a text is meant to have, by how it begins.
pub(crate) fn form_of(text: &[u8]) -> Form
    ensures { result ≡ form_of text.now }
{
    if text.starts_with(b"evc-script".as_slice()) {
        return Form::Script;
    }
    if text.starts_with(b"evc-calls".as_slice()) {
        return Form::Calls;
    }
    Form::Trace
}
