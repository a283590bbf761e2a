//! Why items can't be put in or taken out in the order that is known, in words.
ghost use Rattle.std.specs.Prelude.{◌≡◌};
ghost use Rattle.ec_text.specs.Puts.{Puts};
ghost use Rattle.calls_report.specs.Outruns.{moved_text, least_text, due_put_text, due_taken_text};
ghost use Rattle.calls_report.specs.Outruns.{due_text, since_text, calls_text, takers_text};
ghost use Rattle.calls_report.specs.Outruns.{needed_text, reason_text, step_text, next_step};
ghost use Rattle.calls_report.specs.Outruns.{further_steps, chain_text, steps_text, full_text};
ghost use Rattle.calls_report.specs.Outruns.{no_calls, up_to, no_more, empty_text, closed_text};
ghost use Rattle.calls_report.specs.Outruns.{was_text, only_calls, few_calls, shortage_text};
ghost use Rattle.calls_report.specs.Outruns.{next_shortage};
ghost use Rattle.calls_report.specs.Outruns.{further_shortages, listed_text};
ghost use Rattle.calls_report.specs.Outruns.{shortages_text, asked_text, asking_text, others_text};
ghost use Rattle.calls_report.specs.Outruns.{last_position, few_text, most_taken, taken_text};
ghost use Rattle.calls_report.specs.Outruns.{share_text, next_share, further_shares};
ghost use Rattle.calls_report.specs.Outruns.{listed_shares, shares_text, joint_text, total_text};
ghost use Rattle.calls_report.specs.Outruns.{crowd_text, clash_text, outrun_text};

use crate::items::{put_by_line, put_room, put_some, room};
use crate::refusal::Site;
use calls_buffers::Flow;
use calls_turns::{Clash, Crowd, Reason, Share, Shortage, Step};
use ec_text::Output;
use std::io::Write;

/// Puts what happened to items.
fn put_moved<W: Write>(out: &mut Output<'_, W>, flow: Flow)
    ensures { Puts out.old out.new (moved_text flow) }
{
    match flow {
        Flow::In => out.put(b"put in"),
        Flow::Out => out.put(b"taken"),
    }
}

/// Puts how many items at least had been put in or taken.
fn put_least<W: Write>(out: &mut Output<'_, W>, flow: Flow, n: usize)
    ensures { Puts out.old out.new (least_text flow n) }
{
    out.put(b"at least ");
    put_some(out, n, b"item");
    out.put(b" had been ");
    put_moved(out, flow);
}

/// Puts how many consumes had returned, each of which needs an item.
fn put_due_put<W: Write>(out: &mut Output<'_, W>, n: usize)
    ensures { Puts out.old out.new (due_put_text n) }
{
    put_some(out, n, b"consume");
    out.put(b" had returned, so ");
    put_least(out, Flow::In, n);
}

/// Puts how many produces had returned, for which there is not enough room.
fn put_due_taken<W: Write>(out: &mut Output<'_, W>, site: &Site<'_>, n: usize)
    ensures { Puts out.old out.new (due_taken_text site.now n) }
{
    put_some(out, n.saturating_add(room(site)), b"produce");
    out.put(b" had returned, so with ");
    put_room(out, site);
    out.put(b" ");
    put_least(out, Flow::Out, n);
}

/// Puts that so many items are due by a line.
fn put_due<W: Write>(out: &mut Output<'_, W>, site: &Site<'_>, flow: Flow, n: usize)
    ensures { Puts out.old out.new (due_text site.now flow n) }
{
    match flow {
        Flow::In => put_due_put(out, n),
        Flow::Out => put_due_taken(out, site, n),
    }
}

/// Puts after which line calls were invoked.
fn put_since<W: Write>(out: &mut Output<'_, W>, site: &Site<'_>, after: Option<usize>)
    ensures { Puts out.old out.new (since_text site.now after) }
{
    if let Some(position) = after {
        out.put(b" called after line ");
        site.put_line(out, position);
    }
}

/// Puts how many calls there are that put in or take out an item.
fn put_calls<W: Write>(out: &mut Output<'_, W>, flow: Flow, n: usize)
    ensures { Puts out.old out.new (calls_text flow n) }
{
    match flow {
        Flow::In => put_some(out, n, b"produce"),
        Flow::Out => put_some(out, n, b"consume"),
    }
}

/// Puts how many calls of an item had returned.
fn put_takers<W: Write>(
    out: &mut Output<'_, W>,
    site: &Site<'_>,
    flow: Flow,
    item: usize,
    after: Option<usize>,
    takers: usize,
)
    ensures { Puts out.old out.new (takers_text site.now flow item after takers) }
{
    put_calls(out, flow, takers);
    out.put(b" of ");
    out.put_number(item as u64);
    put_since(out, site, after);
    out.put(b" had returned");
}

/// Puts that so many calls of an item had returned, which need so many items.
fn put_needed<W: Write>(
    out: &mut Output<'_, W>,
    site: &Site<'_>,
    flow: Flow,
    count: usize,
    item: usize,
    after: Option<usize>,
    takers: usize,
)
    ensures { Puts out.old out.new (needed_text site.now flow count item after takers) }
{
    put_takers(out, site, flow, item, after, takers);
    out.put(b", so ");
    put_least(out, flow, count);
}

/// Puts why so many items had been put in or taken.
fn put_reason<W: Write>(
    out: &mut Output<'_, W>,
    site: &Site<'_>,
    flow: Flow,
    count: usize,
    reason: Reason,
)
    ensures { Puts out.old out.new (reason_text site.now flow count reason) }
{
    match reason {
        Reason::Due => put_due(out, site, flow, count),
        Reason::Takers {
            item,
            after,
            takers,
        } => put_needed(out, site, flow, count, item, after, takers),
    }
}

/// Puts why so many items had been put in or taken by a line.
fn put_step<W: Write>(out: &mut Output<'_, W>, site: &Site<'_>, flow: Flow, step: &Step)
    ensures { Puts out.old out.new (step_text site.now flow step.now) }
{
    put_by_line(out, site, step.at);
    put_reason(out, site, flow, step.count, step.reason);
}

/// Puts a step after a semicolon.
fn put_next_step<W: Write>(out: &mut Output<'_, W>, site: &Site<'_>, flow: Flow, step: &Step)
    ensures { Puts out.old out.new (next_step site.now flow step.now) }
{
    out.put(b"; ");
    put_step(out, site, flow, step);
}

/// Puts steps, each after a semicolon.
fn put_further_steps<W: Write>(out: &mut Output<'_, W>, site: &Site<'_>, flow: Flow, steps: &[Step])
    ensures { Puts out.old out.new (further_steps site.now flow steps.now) }
{
    for step in steps {
        put_next_step(out, site, flow, step);
    }
}

/// Puts a step, and further ones, each after a semicolon.
fn put_chain<W: Write>(
    out: &mut Output<'_, W>,
    site: &Site<'_>,
    flow: Flow,
    first: &Step,
    further: &[Step],
)
    ensures { Puts out.old out.new (chain_text site.now flow first.now further.now) }
{
    put_step(out, site, flow, first);
    put_further_steps(out, site, flow, further);
}

/// Puts steps.
fn put_steps<W: Write>(out: &mut Output<'_, W>, site: &Site<'_>, flow: Flow, steps: &[Step])
    ensures { Puts out.old out.new (steps_text site.now flow steps.now) }
{
    if let [first, further @ ..] = steps {
        put_chain(out, site, flow, first, further);
    }
}

/// Puts that there is no call that puts in or takes out an item.
fn put_no_calls<W: Write>(out: &mut Output<'_, W>, flow: Flow)
    ensures { Puts out.old out.new (no_calls flow) }
{
    match flow {
        Flow::In => out.put(b"no produce"),
        Flow::Out => out.put(b"no consume"),
    }
}

/// Puts that there are at most so many calls that put in or take out an item.
fn put_up_to<W: Write>(out: &mut Output<'_, W>, flow: Flow, n: usize)
    ensures { Puts out.old out.new (up_to flow n) }
{
    out.put(b"no more than ");
    put_calls(out, flow, n);
}

/// Puts that there is no call that puts in or takes out an item, or at most so many.
fn put_no_more<W: Write>(out: &mut Output<'_, W>, flow: Flow, n: usize)
    ensures { Puts out.old out.new (no_more flow n) }
{
    if n == 0 {
        put_no_calls(out, flow);
    } else {
        put_up_to(out, flow, n);
    }
}

/// Puts that for an item there was no room yet.
fn put_full<W: Write>(out: &mut Output<'_, W>, site: &Site<'_>, turn: usize)
    ensures { Puts out.old out.new (full_text site.now turn) }
{
    out.put(b", but ");
    put_no_more(out, Flow::Out, turn.saturating_sub(room(site)));
    out.put(b" had been called by then, with ");
    put_room(out, site);
}

/// Puts that an item had not been produced yet.
fn put_empty<W: Write>(out: &mut Output<'_, W>, turn: usize)
    ensures { Puts out.old out.new (empty_text turn) }
{
    out.put(b", but ");
    put_no_more(out, Flow::In, turn);
    out.put(b" had been called by then");
}

/// Puts that an item could not have been put in or taken yet.
fn put_closed<W: Write>(out: &mut Output<'_, W>, site: &Site<'_>, flow: Flow, turn: usize)
    ensures { Puts out.old out.new (closed_text site.now flow turn) }
{
    match flow {
        Flow::In => put_full(out, site, turn),
        Flow::Out => put_empty(out, turn),
    }
}

/// Puts a verb for so many items.
fn put_was<W: Write>(out: &mut Output<'_, W>, n: usize)
    ensures { Puts out.old out.new (was_text n) }
{
    if n == 1 {
        out.put(b" was ");
    } else {
        out.put(b" were ");
    }
}

/// Puts that there are only so many calls that put in or take out an item.
fn put_only_calls<W: Write>(out: &mut Output<'_, W>, flow: Flow, n: usize)
    ensures { Puts out.old out.new (only_calls flow n) }
{
    out.put(b"only ");
    put_calls(out, flow, n);
}

/// Puts how few calls there are that put in or take out an item.
fn put_few_calls<W: Write>(out: &mut Output<'_, W>, flow: Flow, n: usize)
    ensures { Puts out.old out.new (few_calls flow n) }
{
    if n == 0 {
        put_no_calls(out, flow);
    } else {
        put_only_calls(out, flow, n);
    }
}

/// Puts that too few calls of an item could have put it in or taken it by a line.
fn put_shortage<W: Write>(out: &mut Output<'_, W>, site: &Site<'_>, flow: Flow, shortage: &Shortage)
    ensures { Puts out.old out.new (shortage_text site.now flow shortage.now) }
{
    out.put(b"of the first ");
    put_some(out, shortage.turn.saturating_add(1), b"item");
    out.put(b", ");
    out.put_number(shortage.turns as u64);
    put_was(out, shortage.turns);
    out.put_number(shortage.item as u64);
    out.put(b", and ");
    put_few_calls(out, flow, shortage.takers);
    out.put(b" of it had been called by line ");
    site.put_line(out, shortage.at);
}

/// Puts a shortage after a semicolon.
fn put_next_shortage<W: Write>(
    out: &mut Output<'_, W>,
    site: &Site<'_>,
    flow: Flow,
    shortage: &Shortage,
)
    ensures { Puts out.old out.new (next_shortage site.now flow shortage.now) }
{
    out.put(b"; ");
    put_shortage(out, site, flow, shortage);
}

/// Puts shortages, each after a semicolon.
fn put_further_shortages<W: Write>(
    out: &mut Output<'_, W>,
    site: &Site<'_>,
    flow: Flow,
    shortages: &[Shortage],
)
    ensures { Puts out.old out.new (further_shortages site.now flow shortages.now) }
{
    for shortage in shortages {
        put_next_shortage(out, site, flow, shortage);
    }
}

/// Puts a shortage, and further ones, each after a semicolon.
fn put_listed<W: Write>(
    out: &mut Output<'_, W>,
    site: &Site<'_>,
    flow: Flow,
    first: &Shortage,
    further: &[Shortage],
)
    ensures { Puts out.old out.new (listed_text site.now flow first.now further.now) }
{
    put_shortage(out, site, flow, first);
    put_further_shortages(out, site, flow, further);
}

/// Puts shortages.
fn put_shortages<W: Write>(
    out: &mut Output<'_, W>,
    site: &Site<'_>,
    flow: Flow,
    shortages: &[Shortage],
)
    ensures { Puts out.old out.new (shortages_text site.now flow shortages.now) }
{
    if let [first, further @ ..] = shortages {
        put_listed(out, site, flow, first, further);
    }
}

/// Puts how many pending calls there are that may put in or take out any item.
fn put_asked<W: Write>(out: &mut Output<'_, W>, flow: Flow, n: usize)
    ensures { Puts out.old out.new (asked_text flow n) }
{
    match flow {
        Flow::In => put_some(out, n, b"pending produce"),
        Flow::Out => put_some(out, n, b"pending consume"),
    }
}

/// Puts that only so many pending calls had been called by a line.
fn put_asking<W: Write>(
    out: &mut Output<'_, W>,
    site: &Site<'_>,
    flow: Flow,
    position: usize,
    n: usize,
)
    ensures { Puts out.old out.new (asking_text site.now flow position n) }
{
    out.put(b"; and only ");
    put_asked(out, flow, n);
    out.put(b" had been called by line ");
    site.put_line(out, position);
}

/// Puts how many pending calls had been called by a line, if there are some.
fn put_others<W: Write>(
    out: &mut Output<'_, W>,
    site: &Site<'_>,
    flow: Flow,
    position: usize,
    n: usize,
)
    ensures { Puts out.old out.new (others_text site.now flow position n) }
{
    if n != 0 {
        put_asking(out, site, flow, position, n);
    }
}

/// Returns the position of the last step.
fn last_position(steps: &[Step]) -> usize
    ensures { result ≡ last_position steps.now }
{
    match steps.last() {
        Some(step) => step.at,
        None => 0,
    }
}

/// Puts that too few calls could have put in or taken some items by then.
fn put_few<W: Write>(
    out: &mut Output<'_, W>,
    site: &Site<'_>,
    flow: Flow,
    steps: &[Step],
    shortages: &[Shortage],
    others: usize,
)
    ensures { Puts out.old out.new (few_text site.now flow steps.now shortages.now others) }
{
    out.put(b", but ");
    put_shortages(out, site, flow, shortages);
    put_others(out, site, flow, last_position(steps), others);
}

/// Puts that at most so many items are consumed.
fn put_at_most<W: Write>(out: &mut Output<'_, W>, n: usize)
    ensures { Puts out.old out.new (most_taken n) }
{
    out.put(b"at most ");
    out.put_number(n as u64);
}

/// Puts how many items are consumed, at most.
fn put_taken<W: Write>(out: &mut Output<'_, W>, n: usize)
    ensures { Puts out.old out.new (taken_text n) }
{
    if 0 < n {
        put_at_most(out, n);
    } else {
        out.put(b"none");
    }
}

/// Puts how many produces of an item had returned, and how many of these items are consumed.
fn put_share<W: Write>(out: &mut Output<'_, W>, site: &Site<'_>, flow: Flow, share: &Share)
    ensures { Puts out.old out.new (share_text site.now flow share.now) }
{
    put_takers(out, site, flow, share.item, share.after, share.takers);
    out.put(b", and consumes return ");
    put_taken(out, share.turns);
    out.put(b" of these items");
}

/// Puts a share after a semicolon.
fn put_next_share<W: Write>(out: &mut Output<'_, W>, site: &Site<'_>, flow: Flow, share: &Share)
    ensures { Puts out.old out.new (next_share site.now flow share.now) }
{
    out.put(b"; ");
    put_share(out, site, flow, share);
}

/// Puts shares, each after a semicolon.
fn put_further_shares<W: Write>(
    out: &mut Output<'_, W>,
    site: &Site<'_>,
    flow: Flow,
    shares: &[Share],
)
    ensures { Puts out.old out.new (further_shares site.now flow shares.now) }
{
    for share in shares {
        put_next_share(out, site, flow, share);
    }
}

/// Puts a share, and further ones, each after a semicolon.
fn put_listed_shares<W: Write>(
    out: &mut Output<'_, W>,
    site: &Site<'_>,
    flow: Flow,
    first: &Share,
    further: &[Share],
)
    ensures { Puts out.old out.new (listed_shares site.now flow first.now further.now) }
{
    put_share(out, site, flow, first);
    put_further_shares(out, site, flow, further);
}

/// Puts shares.
fn put_shares<W: Write>(out: &mut Output<'_, W>, site: &Site<'_>, flow: Flow, shares: &[Share])
    ensures { Puts out.old out.new (shares_text site.now flow shares.now) }
{
    if let [first, further @ ..] = shares {
        put_listed_shares(out, site, flow, first, further);
    }
}

/// Puts what joins steps, if there are some, and what follows.
fn put_joint<W: Write>(out: &mut Output<'_, W>, steps: &[Step])
    ensures { Puts out.old out.new (joint_text steps.now) }
{
    if !steps.is_empty() {
        out.put(b"; ");
    }
}

/// Puts how many items had been put in, with those that consumes return.
fn put_total<W: Write>(out: &mut Output<'_, W>, flow: Flow, known: usize, turn: usize)
    ensures { Puts out.old out.new (total_text flow known turn) }
{
    out.put(b", so with the ");
    out.put_number(known as u64);
    out.put(b" that they return ");
    put_least(out, flow, turn.saturating_add(1));
}

/// Puts that by a position more items had been put in than there was room for, since consumes do not
/// return them.
fn put_crowd<W: Write>(
    out: &mut Output<'_, W>,
    site: &Site<'_>,
    flow: Flow,
    steps: &[Step],
    crowd: &Crowd,
)
    ensures { Puts out.old out.new (crowd_text site.now flow steps.now crowd.now) }
{
    put_joint(out, steps);
    put_by_line(out, site, crowd.at);
    put_shares(out, site, flow, &crowd.shares);
    put_total(out, flow, crowd.known, crowd.turn);
    put_closed(out, site, flow, crowd.turn);
}

/// Puts why that can't be.
fn put_clash<W: Write>(
    out: &mut Output<'_, W>,
    site: &Site<'_>,
    flow: Flow,
    steps: &[Step],
    clash: &Clash,
)
    ensures { Puts out.old out.new (clash_text site.now flow steps.now clash.now) }
{
    match clash {
        Clash::Closed(turn) => put_closed(out, site, flow, *turn),
        Clash::Few { shortages, others } => put_few(out, site, flow, steps, shortages, *others),
        Clash::Full(crowd) => put_crowd(out, site, flow, steps, crowd),
    }
}

/// Puts that more items had to be put in or taken by a line than could be.
pub(crate) fn put_outrun<W: Write>(
    out: &mut Output<'_, W>,
    site: &Site<'_>,
    flow: Flow,
    steps: &[Step],
    clash: &Clash,
)
    ensures { Puts out.old out.new (outrun_text site.now flow steps.now clash.now) }
{
    put_steps(out, site, flow, steps);
    put_clash(out, site, flow, steps, clash);
}
