// What steps A to H count and gather (document 01, 'One pass'), over lent parts of a record: the highest view with enough
// view-changes, over its shared part; the reports of a view and the plan that a quorum of votes is for, over its block.
#![tactic(auto)]

ghost use Rattle.std.specs.Prelude.{◌+◌, ◌-◌, ◌*◌, ◌≤◌, ◌<◌, ◌≡◌, not, cond, leb, ltb, eqb, length};
ghost use Rattle.rules.specs.Sets.{weigh};
ghost use Rattle.rules.specs.Options.{is_none, holds};
ghost use Rattle.frame.specs.Refusal.{leader_of};
ghost use Rattle.record.specs.Slots.{rows, slot_count, frame_slot};
ghost use Rattle.claims.specs.Table.{column, table_size};
ghost use Rattle.record.specs.Layout.{slot_size, shared_size, slot_in};
ghost use Rattle.record.specs.inside.Layout.{block_size};
ghost use Rattle.safe.specs.Choices.{chosen};
ghost use Rattle.tally.specs.inside.Parts.{block_place};
ghost use Rattle.tally.specs.inside.Changes.{asks, change_in, news_from, enough, asking, raised_to, Gathered, Highest};
ghost use Rattle.tally.specs.inside.Votes.{voted, vote_in_block, row_votes, lead_with, lead_after, agreed_in, Leads};
ghost use Rattle.tally.specs.inside.Reports.{reports_by, above_of, with_vote, with_report, Filled};

use frame::{Report, numbers};
use settings::Settings;

// 'its leader is vault (view mod n)'.
pub fn leader(view: u32, n: usize) -> usize
    requires { 0 < n }
    ensures { (result ≡ leader_of view n) × (result < n) }
{
    (view as usize) % n
}

// ---- view-changes, for A and B

// The view of the view-change at a place, where one is kept and is above low; low where not.
pub fn change_above(shared: &[u8], at: usize, low: u32) -> u32
    requires { at + slot_size ≤ length shared.now }
    ensures { result ≡ news_from low (asks (slot_in shared.now at)) }
{
    if shared[at] != numbers::PRESENT {
        return low;
    }
    low.max(record::view_at(shared, at))
}

// What a view adds to those above low.
fn share_above(low: u32, w: u32) -> usize
    ensures { result ≡ cond (ltb low w) 1 0 }
{
    usize::from(low < w)
}

// Gathers the views above low that the view-changes of n senders are for, and answers how many they are. Each is put at the next
// place, and the next one takes that place where it is not above low. Where too few are left for what is needed, the rest is not read.
fn views_above(shared: &[u8], n: usize, need: usize, low: u32, views: &mut [u32]) -> usize
    requires { (length shared.now ≡ shared_size) × (n ≤ rows) × (length views.old ≡ rows) }
    ensures { Gathered (change_in shared.now) n need low views.new result × (length views.new ≡ rows) }
{
    let mut count: usize = 0;
    for j in 0..n {
        if count + (n - j) < need {
            return count;
        }
        let w = change_above(shared, record::HEAD + record::SLOT * j, low);
        views[count] = w;
        count += share_above(low, w);
    }
    count
}

// What a view adds to those that ask for w: 'a kept view-change for w counts for every view up to w'.
fn share_asking(x: u32, w: u32) -> u32
    ensures { result ≡ cond (leb w x) 1 0 }
{
    u32::from(w <= x)
}

// How many of the views ask for w.
fn count_asking(views: &[u32], w: u32) -> usize
    requires { length views.now ≤ rows }
    ensures { result ≡ asking views.now (length views.now) w }
{
    let mut count: u32 = 0;
    for &x in views {
        count += share_asking(x, w);
    }
    count as usize
}

// The highest view so far, once w is tried.
fn raised(views: &[u32], w: u32, need: usize, best: u32) -> u32
    requires { length views.now ≤ rows }
    ensures { result ≡ raised_to views.now w need best }
{
    if w <= best {
        return best;
    }
    if count_asking(views, w) < need {
        return best;
    }
    w
}

// The highest view above low that as many of the views ask for as are needed, low where there is none. It is one of the views: where enough
// ask for a view, they ask for the least of theirs too.
fn highest_of(views: &[u32], need: usize, low: u32) -> u32
    requires { (length views.now ≤ rows) × (0 < need) }
    ensures { Highest (λ w. leb need (asking views.now (length views.now) w)) low result }
{
    if views.len() < need {
        return low;
    }
    let mut best = low;
    for &w in views {
        best = raised(views, w, need, best);
    }
    best
}

// The highest view above low that as many of n view-changes as are needed ask for, low where there is none.
pub fn highest_change(shared: &[u8], n: usize, need: usize, low: u32) -> u32
    requires { (length shared.now ≡ shared_size) × (n ≤ rows) × (0 < need) × (need ≤ rows) }
    ensures { Highest (enough (change_in shared.now) n need) low result }
{
    let mut views = [0u32; record::ROWS];
    let count = views_above(shared, n, need, low, &mut views);
    highest_of(&views[0..count], need, low)
}

// ---- the block

// Where slot i of a record stands in the block.
fn block_place(i: usize) -> usize
    requires { (rows ≤ i) × (i < slot_count) }
    ensures { (result ≡ block_place i) × (result + slot_size ≤ block_size) }
{
    record::HEAD + record::SLOT * (i - record::ROWS)
}

// Where a sender's vote-k, for k = 0 its proposal, stands.
pub fn vote_place(k: u8, sender: u8) -> usize
    requires { (k ≤ 4) × (sender < rows) }
    ensures { (result ≡ block_place (frame_slot (k + 1) sender)) × (result + slot_size * (rows - sender) ≤ block_size) }
{
    block_place(record::frame_slot(k + 1, sender))
}

// Whether the vote at a place is of view v.
pub fn is_of_view(block: &[u8], at: usize, v: u32) -> bool
    requires { at + slot_size ≤ length block.now }
    ensures { result ≡ not (is_none (voted v (slot_in block.now at))) }
{
    if block[at] != numbers::PRESENT {
        return false;
    }
    record::view_at(block, at) == v
}

// Whether a sender's vote-k, for k = 0 its proposal, is of view v: 'once a view'.
pub fn sent(block: &[u8], k: u8, sender: u8, v: u32) -> bool
    requires { (length block.now ≡ block_size) × (k ≤ 4) × (sender < rows) }
    ensures { result ≡ not (is_none (vote_in_block block.now v k sender)) }
{
    is_of_view(block, vote_place(k, sender), v)
}

// ---- reports, for C and D

// A vote's view + 1, 0 where it is absent.
fn above(x: Report) -> u64
    ensures { result ≡ above_of x }
{
    if x.mark == numbers::PRESENT {
        (x.view as u64) + 1
    } else {
        0
    }
}

// Puts the vote at a place of the block into two columns of the table.
fn put_vote(table: &mut [u64], at: usize, block: &[u8], from: usize)
    requires { (at + column < length table.old) × (from + slot_size ≤ length block.now) }
    ensures { table.new ≡ with_vote table.old at (slot_in block.now from) }
{
    let x = record::slot_at(block, from);
    table[at] = above(x);
    table[at + claims::COLUMN] = x.plan;
}

// How far the second and the third vote of a report stand from the first.
const SECOND: usize = record::SLOT * record::ROWS;

const THIRD: usize = 2 * SECOND;

// Puts what sender i reports into the table: three votes, of which the first stands at a place of the block.
fn put_report(table: &mut [u64], i: usize, block: &[u8], from: usize)
    requires { (length table.old ≡ table_size) × (i < rows) × (from + slot_size * (2 * rows + 1) ≤ length block.now) }
    ensures { table.new ≡ with_report table.old i (slot_in block.now from) (slot_in block.now (from + slot_size * rows)) (slot_in block.now (from + slot_size * (2 * rows))) }
{
    table[i] = 1;
    put_vote(table, claims::HIGHEST + i, block, from);
    put_vote(table, claims::PREVIOUS + i, block, from + SECOND);
    put_vote(table, claims::LOCK + i, block, from + THIRD);
}

// Puts what sender i reports into the table, where its suggest (kind 7) or proof (kind 8) is of view v.
fn gather_from(table: &mut [u64], i: u8, block: &[u8], kind: u8, v: u32)
    requires { (length block.now ≡ block_size) × (i < rows) × (7 ≤ kind) × (kind ≤ 8) × Filled (reports_by block.now kind v) i table.old }
    ensures { Filled (reports_by block.now kind v) (i + 1) table.new }
{
    let at = block_place(record::frame_slot(kind, i));
    if is_of_view(block, at, v) {
        let from = block_place(record::report_slot(kind, 0, i));
        put_report(table, i as usize, block, from);
    }
}

// The reports of view v in the suggests (kind 7) or proofs (kind 8) of n senders, as the search takes them.
pub fn gather(block: &[u8], kind: u8, n: u8, v: u32) -> [u64; claims::TABLE]
    requires { (length block.now ≡ block_size) × (n ≤ rows) × (7 ≤ kind) × (kind ≤ 8) }
    ensures { Filled (reports_by block.now kind v) n result }
{
    let mut table = [0u64; claims::TABLE];
    for i in 0..n {
        gather_from(&mut table, i, block, kind, v);
    }
    table
}

// ---- votes, for E to H

// The plan that leads among votes, by how many, and how many the votes are.
#[derive(Clone, Copy)]
struct Lead {
    plan: u64,
    margin: usize,
    votes: usize,
}

// The lead, with a vote for x counted.
fn lead_with(b: Lead, x: u64) -> Lead
    requires { (b.margin < rows) × (b.votes < rows) }
    ensures { result ≡ lead_with b x }
{
    let votes = b.votes + 1;
    if x == b.plan {
        return Lead {
            plan: x,
            margin: b.margin + 1,
            votes,
        };
    }
    if b.margin == 0 {
        return Lead {
            plan: x,
            margin: 1,
            votes,
        };
    }
    Lead {
        plan: b.plan,
        margin: b.margin - 1,
        votes,
    }
}

// The lead, with the vote at a place counted, where that is of view v.
fn lead_after(b: Lead, block: &[u8], at: usize, v: u32) -> Lead
    requires { (b.margin < rows) × (b.votes < rows) × (at + slot_size ≤ length block.now) }
    ensures { result ≡ lead_after b (voted v (slot_in block.now at)) }
{
    if block[at] != numbers::PRESENT {
        return b;
    }
    if record::view_at(block, at) != v {
        return b;
    }
    lead_with(b, record::plan_at(block, at))
}

// The plan that leads among the votes of view v in the n slots from a place on. Where more than f are missing, the rest is not read.
fn lead_of(block: &[u8], from: usize, n: usize, f: usize, v: u32) -> Lead
    requires { (from + slot_size * n ≤ length block.now) × (n ≤ rows) × (f < n) }
    ensures { Leads (row_votes block.now v from) n f result }
{
    let mut b = Lead {
        plan: 0,
        margin: 0,
        votes: 0,
    };
    for j in 0..n {
        if b.votes + f < j {
            return b;
        }
        b = lead_after(b, block, from + record::SLOT * j, v);
    }
    b
}

// What the vote at a place adds to those of view v for p.
fn vote_share(block: &[u8], at: usize, v: u32, p: u64) -> usize
    requires { at + slot_size ≤ length block.now }
    ensures { result ≡ cond (holds (eqb p) (voted v (slot_in block.now at))) 1 0 }
{
    usize::from(is_of_view(block, at, v) && p == record::plan_at(block, at))
}

// How many of the n votes from a place on are of view v and for p.
fn votes_for(block: &[u8], from: usize, n: usize, v: u32, p: u64) -> usize
    requires { (from + slot_size * n ≤ length block.now) × (n ≤ rows) }
    ensures { result ≡ weigh (λ i. 1) (λ j. holds (eqb p) (row_votes block.now v from j)) n }
{
    let mut count: usize = 0;
    for j in 0..n {
        count += vote_share(block, from + record::SLOT * j, v, p);
    }
    count
}

// The plan that a quorum of the votes of view v from a place on is for. Where the votes are too few, those for the plan are not counted.
pub fn agreed_plan(block: &[u8], from: usize, set: Settings, v: u32) -> Option<u64>
    requires { (from + slot_size * set.n ≤ length block.now) × (set.n ≤ rows) × (3 * set.f < set.n) }
    ensures { chosen result ≡ agreed_in (row_votes block.now v from) set.n set.f }
{
    let n = set.n as usize;
    let f = set.f as usize;
    let quorum = n - f;
    let b = lead_of(block, from, n, f, v);
    if b.votes < quorum {
        return None;
    }
    let count = votes_for(block, from, n, v, b.plan);
    if count < quorum {
        return None;
    }
    Some(b.plan)
}
