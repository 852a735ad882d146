// What each step of document 01's pass does ('One pass', A to H), on the vault's own part of its record by value: what it says of itself. A step hands
// that part back with the entries. What the vault heard is only read, where the record lies.
#![tactic(auto)]

ghost use Rattle.std.specs.Prelude.{◌+◌, ◌-◌, ◌≤◌, ◌<◌, ◌≡◌, get_or};
ghost use Rattle.std.proofs.Math.Option.{some};
ghost use Rattle.frame.specs.Refusal.{leader_of};
ghost use Rattle.record.specs.inside.Kept.{told, keep_frame};
ghost use Rattle.record.specs.inside.Keeping.{moves, shifted_slots};
ghost use Rattle.own.specs.inside.Own.{settings_in, reports_in, Changes};
ghost use Rattle.protocol.specs.Pass.{ask, enter, cast, decide};
ghost use Rattle.protocol.specs.Pass.{act_a, act_b, act_c, act_d, act_vote, act_h, step_a, step_b, step_c, step_d, step_vote, step_h};
ghost use Rattle.acts.specs.inside.Acts.{act_at};
ghost use Rattle.steps.specs.inside.Steps.{changes};
ghost use Rattle.steps.specs.inside.Own.{Tell, Does, Takes};
ghost use Rattle.steps.specs.inside.Order.{step_at};

use frame::{Body, Frame, Report, Reports, numbers};
use settings::Settings;

// The entries that a step writes: none; a frame for all vaults (A, C to G); the decision (H); a timer, given by view and milliseconds,
// with the proof for all (B, where the vault leads the view), and with the suggest for the leader (B elsewhere). None is one count among
// five, so no Option stands around the others.
#[derive(Clone, Copy)]
pub enum Entries {
    Zero,
    Sent(Frame),
    Decided(u32, u64),
    Led(u32, u32, Frame),
    Followed(u32, u32, Frame, u8, Frame),
}

// What a step wrote: as a struct it is stored in a field.
#[derive(Clone, Copy)]
pub struct Wrote {
    pub entries: Entries,
}

// A vault's own part of its record by value, with the entries of the step that left it. Document 01 has steps A to H as methods that take self and hand
// back record with entries, so a step takes one and hands one back.
#[derive(Clone, Copy)]
pub struct Own {
    pub bytes: [u8; own::SIZE],
    pub wrote: Wrote,
}

// The own slot of the view-change.
pub const CHANGE: u8 = numbers::VIEW_CHANGE - numbers::PROPOSAL;

// The own slot of a kind of frame.
fn slot_of_kind(kind: u8) -> u8
    requires { (1 ≤ kind) × (kind ≤ 8) }
    ensures { result ≡ kind - 1 }
{
    kind - numbers::PROPOSAL
}

// ---- what an act does, where the own part lies

// The frame that asks for a view.
pub fn change_frame(id: u8, w: u32) -> Frame
    ensures { result ≡ changes id w }
{
    Frame {
        kind: numbers::VIEW_CHANGE,
        sender: id,
        view: w,
        body: Body::Empty,
    }
}

// To ask for a view.
fn ask_in(part: &mut [u8; own::SIZE], w: u32) -> Wrote
    ensures { Does (some (ask w)) part.old part.new result.entries }
{
    let set = own::settings_in(part);
    let f = change_frame(set.id, w);
    own::put_in(part, CHANGE, frame::present(w, 0));
    Wrote {
        entries: Entries::Sent(f),
    }
}

// A new vote of a kind for a plan moves the kept one to the previous one.
fn vote_moves(slot: Report, kind: u8, plan: u64) -> bool
    ensures { result ≡ moves slot kind plan }
{
    if kind < numbers::VOTE_1 {
        return false;
    }
    if numbers::VOTE_2 < kind {
        return false;
    }
    if slot.mark != numbers::PRESENT {
        return false;
    }
    slot.plan != plan
}

// The own slot of the previous vote of a kind: vote-1 or vote-2.
pub fn slot_of_previous(kind: u8) -> u8
    requires { (2 ≤ kind) × (kind ≤ 3) }
    ensures { result ≡ kind + 12 }
{
    own::PREVIOUS + (kind - numbers::VOTE_1)
}

// Moves the own kept vote to the previous one, where a new vote of that kind for a plan moves it.
fn shift(part: &mut [u8; own::SIZE], kind: u8, p: u64)
    requires { (1 ≤ kind) × (kind ≤ 5) }
    ensures { Changes (λ r. shifted_slots r kind p) part.old part.new }
{
    let slot = own::slot_in(part, slot_of_kind(kind));
    if !vote_moves(slot, kind, p) {
        return;
    }
    own::put_in(part, slot_of_previous(kind), slot);
}

// To send a vote, or a proposal (0): the kinds of the votes follow that of the proposal.
fn cast_in(part: &mut [u8; own::SIZE], k: u8, p: u64) -> Wrote
    requires { k ≤ 4 }
    ensures { Does (some (cast k p)) part.old part.new result.entries }
{
    let set = own::settings_in(part);
    let view = own::view_in(part);
    let f = Frame {
        kind: k + numbers::PROPOSAL,
        sender: set.id,
        view,
        body: Body::Plan(p),
    };
    shift(part, k + numbers::PROPOSAL, p);
    own::put_in(part, k, frame::present(view, p));
    Wrote {
        entries: Entries::Sent(f),
    }
}

// To decide a plan.
fn decide_in(part: &mut [u8; own::SIZE], p: u64) -> Wrote
    ensures { Does (some (decide p)) part.old part.new result.entries }
{
    let view = own::view_in(part);
    own::put_in(part, own::DECISION, frame::present(view, p));
    Wrote {
        entries: Entries::Decided(view, p),
    }
}

// The reports of the own suggest or proof: the highest and the previous own vote of the kind `claim`, and the highest of the kind `lock`.
fn reports_of(part: &[u8; own::SIZE], claim: u8, lock: u8) -> Reports
    requires { (2 ≤ claim) × (claim ≤ 3) × (1 ≤ lock) × (lock ≤ 8) }
    ensures { result ≡ reports_in part.now claim lock }
{
    let highest = own::slot_in(part, slot_of_kind(claim));
    let previous = own::slot_in(part, slot_of_previous(claim));
    let locked = own::slot_in(part, slot_of_kind(lock));
    Reports {
        highest,
        previous,
        lock: locked,
    }
}

// The leader of a view, as an entry's recipient.
fn leader_in(w: u32, n: u8) -> u8
    requires { 0 < n }
    ensures { result ≡ leader_of w n }
{
    tally::leader(w, n as usize) as u8
}

// Keeps the own suggest or proof of a view.
fn keep_told(part: &mut [u8; own::SIZE], kind: u8, w: u32, t: Reports)
    requires { (7 ≤ kind) × (kind ≤ 8) }
    ensures { Changes (λ r. keep_frame r r.set.id (told kind r.set.id w t)) part.old part.new }
{
    let first = own::REPORTS + 3 * (kind - numbers::SUGGEST);
    let highest = t.highest;
    let previous = t.previous;
    let lock = t.lock;
    own::put_in(part, slot_of_kind(kind), frame::present(w, 0));
    own::put_in(part, first, highest);
    own::put_in(part, first + 1, previous);
    own::put_in(part, first + 2, lock);
}

// To enter a view, with the own reports as they are before it: the suggest is kept where the vault leads the view, and sent elsewhere.
fn tell_in(
    part: &mut [u8; own::SIZE],
    set: Settings,
    w: u32,
    proof: Reports,
    suggest: Reports,
) -> Entries
    requires { (set ≡ settings_in part.old) × (0 < set.n) × Tell part.old proof suggest }
    ensures { Does (some (enter w)) part.old part.new result }
{
    let millis = settings::timer_millis(set.class);
    let to = leader_in(w, set.n);
    own::put_view(part, w);
    keep_told(part, numbers::PROOF, w, proof);
    let all = Frame {
        kind: numbers::PROOF,
        sender: set.id,
        view: w,
        body: Body::Told(proof),
    };
    if to == set.id {
        keep_told(part, numbers::SUGGEST, w, suggest);
        return Entries::Led(w, millis, all);
    }
    let one = Frame {
        kind: numbers::SUGGEST,
        sender: set.id,
        view: w,
        body: Body::Told(suggest),
    };
    Entries::Followed(w, millis, all, to, one)
}

// To enter a view.
fn enter_in(part: &mut [u8; own::SIZE], w: u32) -> Wrote
    requires { 0 < get_or part.old 0 0 }
    ensures { Does (some (enter w)) part.old part.new result.entries }
{
    let set = own::settings_in(part);
    let proof = reports_of(part, numbers::VOTE_1, numbers::VOTE_4);
    let suggest = reports_of(part, numbers::VOTE_2, numbers::VOTE_3);
    let entries = tell_in(part, set, w, proof, suggest);
    Wrote { entries }
}

// ---- steps

impl Own {
    // A: to ask for a view that f + 1 vaults ask for.
    pub fn step_a(mut self, w: u32) -> Own
        ensures { Takes act_a step_a (some (ask w)) self.bytes result.bytes result.wrote.entries }
    {
        let wrote = ask_in(&mut self.bytes, w);
        self.wrote = wrote;
        self
    }

    // B: to enter a view that a quorum asks for.
    pub fn step_b(mut self, w: u32) -> Own
        requires { 0 < get_or self.bytes 0 0 }
        ensures { Takes act_b step_b (some (enter w)) self.bytes result.bytes result.wrote.entries }
    {
        let wrote = enter_in(&mut self.bytes, w);
        self.wrote = wrote;
        self
    }

    // C: to propose, where the vault leads.
    pub fn step_c(mut self, p: u64) -> Own
        ensures { Takes act_c step_c (some (cast 0 p)) self.bytes result.bytes result.wrote.entries }
    {
        let wrote = cast_in(&mut self.bytes, 0, p);
        self.wrote = wrote;
        self
    }

    // D: to send vote-1 for the leader's proposal.
    pub fn step_d(mut self, p: u64) -> Own
        ensures { Takes act_d step_d (some (cast 1 p)) self.bytes result.bytes result.wrote.entries }
    {
        let wrote = cast_in(&mut self.bytes, 1, p);
        self.wrote = wrote;
        self
    }

    // E: to send vote-2 on a quorum of vote-1.
    pub fn step_e(mut self, p: u64) -> Own
        ensures { Takes (λ c. act_vote c 1) (step_vote 1) (some (cast 2 p)) self.bytes result.bytes result.wrote.entries }
    {
        let wrote = cast_in(&mut self.bytes, 2, p);
        self.wrote = wrote;
        self
    }

    // F: to send vote-3 on a quorum of vote-2.
    pub fn step_f(mut self, p: u64) -> Own
        ensures { Takes (λ c. act_vote c 2) (step_vote 2) (some (cast 3 p)) self.bytes result.bytes result.wrote.entries }
    {
        let wrote = cast_in(&mut self.bytes, 3, p);
        self.wrote = wrote;
        self
    }

    // G: to send vote-4 on a quorum of vote-3.
    pub fn step_g(mut self, p: u64) -> Own
        ensures { Takes (λ c. act_vote c 3) (step_vote 3) (some (cast 4 p)) self.bytes result.bytes result.wrote.entries }
    {
        let wrote = cast_in(&mut self.bytes, 4, p);
        self.wrote = wrote;
        self
    }

    // H: to decide.
    pub fn step_h(mut self, p: u64) -> Own
        ensures { Takes act_h step_h (some (decide p)) self.bytes result.bytes result.wrote.entries }
    {
        let wrote = decide_in(&mut self.bytes, p);
        self.wrote = wrote;
        self
    }

    // The step of C to G that sends vote-k (0: the proposal). C to G as this one method were tried: an acting call then copied 2,032 bytes in place of
    // none (tests/tests/copies.rs).
    pub fn step_cast(self, k: u8, p: u64) -> Own
        requires { k ≤ 4 }
        ensures { Takes (act_at (k + 2)) (step_at (k + 2)) (some (cast k p)) self.bytes result.bytes result.wrote.entries }
    {
        match k {
            0 => self.step_c(p),
            1 => self.step_d(p),
            2 => self.step_e(p),
            3 => self.step_f(p),
            _ => self.step_g(p),
        }
    }
}
