// The calls at the vaults of a stage: 'Each step is the vault's own step'. A call is lent the vault's record where it lies.
ghost use Rattle.std.specs.Prelude.{◌≡◌, ◌≤◌, length};
ghost use Rattle.wire.specs.Fields.{Bytes};
ghost use Rattle.stage.specs.Stage.{stage_size, record_of};
ghost use Rattle.stage.specs.Lines.{vault_in, kind_of, start_of, delivered, waiting_now, timer_of, call_of};
ghost use Rattle.stage.specs.inside.Parts.{Named, Called};

use crate::{DELIVER, START, places};
use frame::Refusal;
use settings::Settings;

// '4 vaults .. with n = 4 and f = 1'
const VAULTS: u8 = 4;

const LIARS: u8 = 1;

// '00 start (vault, class, plan)'
fn start(stage: &mut [u8; places::SIZE], bytes: &[u8], out: &mut [u8]) -> Result<usize, Refusal>
    requires { Named bytes.now × (kind_of bytes.now ≡ 0) }
    ensures { Called stage.old (vault_in bytes.now) (start_of bytes.now) out.old result stage.new out.new }
{
    let set = Settings {
        n: VAULTS,
        f: LIARS,
        id: bytes[1],
        class: bytes[2],
    };
    let plan = wire::number64(bytes, 3);
    let at = places::record_place(bytes[1]);
    vault::start(&mut stage[at..at + record::SIZE], set, plan, out)
}

// '01 deliver (frame number, vault)': over the link from the frame's writer. The frame stays.
fn deliver(stage: &mut [u8; places::SIZE], k: u8, v: u8, out: &mut [u8]) -> Result<usize, Refusal>
    requires { v ≤ 3 }
    ensures { Called stage.old v (delivered (waiting_now stage.old k)) out.old result stage.new out.new }
{
    let mut frame = [0u8; places::MOST];
    let len = places::copy_frame(stage, k, &mut frame);
    let writer = places::writer_of(stage, k);
    let at = places::record_place(v);
    vault::frame(
        &mut stage[at..at + record::SIZE],
        writer,
        &frame[0..len],
        out,
    )
}

// '05 let a vault's timer for its current view expire'
fn timer(stage: &mut [u8; places::SIZE], v: u8, out: &mut [u8]) -> Result<usize, Refusal>
    requires { v ≤ 3 }
    ensures { Called stage.old v (timer_of (record_of stage.old v)) out.old result stage.new out.new }
{
    let at = places::record_place(v);
    let view = record::view_of(&stage[at..at + record::SIZE]);
    vault::timer(&mut stage[at..at + record::SIZE], view, out)
}

// The call that a line makes, by its kind.
pub fn call(stage: &mut [u8; places::SIZE], bytes: &[u8], out: &mut [u8]) -> Result<usize, Refusal>
    requires { Named bytes.now }
    ensures called { Called stage.old (vault_in bytes.now) (call_of stage.old bytes.now) out.old result stage.new out.new }
    ensures bytes { Bytes stage.new }
{
    if bytes[0] == START {
        return start(stage, bytes, out);
    }
    if bytes[0] == DELIVER {
        return deliver(stage, bytes[1], bytes[2], out);
    }
    timer(stage, bytes[1], out)
}
