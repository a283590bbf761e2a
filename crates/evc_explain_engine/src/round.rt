//! What the round of a read or an await has found, up to its last act.
ghost use Rattle.std.specs.Prelude.{◌≡◌, IfOk};
ghost use Rattle.std.specs.List.{flat_map};
ghost use Rattle.ec_text.specs.Puts.{Puts};
ghost use Rattle.evc_explain_engine.specs.Reasons.{ends_of, ends_text, line_of, look_text};
ghost use Rattle.evc_explain_engine.specs.Reasons.{rest_text, round_model, round_text};
ghost use Rattle.evc_explain_engine.specs.Reasons.{signaller_word};

use crate::explanation::{put_count, whole};
use ec_core::Reply;
use ec_count::{EventId, WorkerId};
use ec_explain::Look;
use ec_text::Output;
use ec_trace::Spellings;
use std::alloc::{AllocError, Global};
use std::io::Write;

/// What a round has found.
#[derive(Drop)]
pub(crate) struct Round<'a> {
    pub(crate) spellings: Spellings<'a>,
    pub(crate) event: EventId,
    pub(crate) looks: Vec<Look>,
    /// How many components the eventcount has.
    pub(crate) width: usize,
    /// The total of the eventcount before the last act.
    pub(crate) total: u64,
    /// The right reply to the last act.
    pub(crate) right: Reply,
    /// The number of the line of the last act.
    pub(crate) number: u64,
    /// How many entries there are before it.
    pub(crate) entries: usize,
}

impl<'a> Round<'a> {
    /// Returns the number of the line of the entry at a position.
    fn line_of(&self, position: usize) -> u64
        ensures { result ≡ line_of (round_model self.now) position }
    {
        let after = self.entries.saturating_sub(position) as u64;
        self.number.saturating_sub(after)
    }

    /// Puts the name of a signaller.
    fn put_signaller<W: Write>(&self, out: &mut Output<'_, W>, signaller: Option<WorkerId>)
        ensures { Puts out.old out.new (signaller_word (round_model self.now).names signaller) }
    {
        if let Some(worker) = signaller {
            out.put(self.spellings.worker(worker));
        }
    }

    /// Puts what an entry found: a component, who signalled it, what it was, and where it was read.
    fn put_look<W: Write>(&self, out: &mut Output<'_, W>, look: &Look)
        ensures { Puts out.old out.new (look_text (round_model self.now) look.now) }
    {
        put_count(out, b"Component ", look.component as u64, b" of ");
        out.put(self.spellings.event(self.event));
        out.put(b", which ");
        self.put_signaller(out, look.signaller);
        put_count(out, b" signalled, was ", look.number, b" on line ");
        put_count(out, b"", self.line_of(look.position), b".\n");
    }

    /// Puts what each entry found.
    fn put_looks<W: Write>(&self, out: &mut Output<'_, W>, looks: &[Look])
        ensures { Puts out.old out.new (flat_map (look_text (round_model self.now)) looks.now) }
    {
        for look in looks {
            self.put_look(out, look);
        }
    }

    /// Puts the count at both ends of the round, which began with this look.
    fn put_ends<W: Write>(&self, out: &mut Output<'_, W>, look: &Look)
        ensures { Puts out.old out.new (ends_text (round_model self.now) look.now) }
    {
        out.put(b"The count of ");
        out.put(self.spellings.event(self.event));
        put_count(
            out,
            b" was ",
            look.total,
            b" when the round began, on line ",
        );
        put_count(out, b"", self.line_of(look.position), b", and is ");
        put_count(out, b"", self.total, b" now.\n");
    }

    /// Puts the count at both ends of the round, if they are two.
    fn put_ends_of<W: Write>(&self, out: &mut Output<'_, W>, looks: &[Look])
        ensures { Puts out.old out.new (ends_of (round_model self.now) looks.now) }
    {
        if let [first, rest @ ..] = looks {
            if !rest.is_empty() {
                self.put_ends(out, first);
            }
        }
    }

    /// Puts why the right reply is pending, if it is: components are yet to be read, or the sum
    /// falls short.
    fn put_rest<W: Write>(&self, out: &mut Output<'_, W>)
        ensures { Puts out.old out.new (rest_text (round_model self.now)) }
    {
        if self.looks.len() < self.width {
            let width = self.width as u64;
            put_count(
                out,
                b"The reply is pending until all ",
                width,
                b" components are read.\n",
            );
        } else if self.right.is_pending() {
            out.put(b"The sum is below the threshold of the await.\n");
        }
    }

    /// Puts what the round has found.
    #[tactic(auto, unfolding(crate::specs::Reasons::round_text))]
    fn put<W: Write>(&self, out: &mut Output<'_, W>)
        ensures { Puts out.old out.new (round_text (round_model self.now)) }
    {
        self.put_looks(out, self.looks.as_slice());
        self.put_ends_of(out, self.looks.as_slice());
        self.put_rest(out);
    }

    /// Returns what the round has found, as bytes.
    pub(crate) fn bytes(&self, alloc: Global) -> Result<Vec<u8>, AllocError>
        ensures { IfOk result (λ bytes. bytes.items ≡ round_text (round_model self.now)) }
    {
        let mut bytes = Vec::new(alloc);
        let mut out = Output::new(&mut bytes);
        self.put(&mut out);
        let done = out.finish();
        out.into_writer();
        whole(bytes, done)
    }
}
