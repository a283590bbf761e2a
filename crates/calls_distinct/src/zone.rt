//! A call with the group, or the zone, of its value.
use calls_core::Call;
use std::marker::Model;

/// A summary of all calls of one value.
#[derive(Debug, Drop)]
pub(crate) struct Group<'a> {
    /// Whether a get returned the value.
    pub got: bool,
    /// How many puts of it there are.
    pub puts: usize,
    /// The position of the invocation of the put that was added last.
    pub put: usize,
    /// A call with the earliest response.
    pub early: &'a Call,
    /// A call with the latest invocation.
    pub late: &'a Call,
}

impl<'a> Model for Group<'a> {
    ghost use Rattle.calls_distinct.specs.kept.Records as records;

    ghost Value = { records.Group };

    ghost view = { λ g. record {
      got = g.got;
      puts = g.puts;
      put = g.put;
      early = g.early.now;
      late = g.late.now;
    } };
}

/// A call, and the group of its value.
#[derive(Debug, Drop)]
pub(crate) struct GroupedCall<'g, 'a> {
    /// The call.
    pub call: &'a Call,
    /// The group of its value.
    pub group: &'g Group<'a>,
}

impl<'g, 'a> Model for GroupedCall<'g, 'a> {
    ghost use Rattle.calls_distinct.specs.kept.Records as records;

    ghost Value = { records.GroupedCall };

    ghost view = { λ z. record { call = z.call.now; group = z.group.now } };
}

/// A call that takes effect, and two calls of its zone. The put of a value that was got and the
/// gets of it are in one zone; a put of a value that nobody got has a zone of its own.
#[derive(Debug, Drop)]
pub(crate) struct Zone<'a> {
    /// The earlier of the response of `early` and the invocation of `late`; 0 for a get of 0.
    pub key: usize,
    /// The call.
    pub call: &'a Call,
    /// A call of its zone with the earliest response.
    pub early: &'a Call,
    /// A call of its zone with the latest invocation.
    pub late: &'a Call,
}

impl<'a> Model for Zone<'a> {
    ghost use Rattle.std.specs.Prelude.{◌≡◌};
    ghost use Rattle.calls_distinct.specs.kept.Records as records;

    ghost Value = { records.Zone };

    ghost use Rattle.calls_distinct.specs.kept.Zones as zones;

    ghost view = { λ z. record {
      call = z.call.now;
      early = z.early.now;
      late = z.late.now;
    } };

    ghost invariant = { λ z. z.key ≡ zones.key (record {
      call = z.call.now;
      early = z.early.now;
      late = z.late.now;
    }) };
}
