// The scope document's cases, act by act, with what it expects.
#![tactic(auto)]

ghost use Rattle.std.specs.Prelude.{◌≡◌, ◌<◌, [], ◌∷◌, length, map};
ghost use Rattle.scripts.specs.Acts.{acts_in};

mod act;
mod says;

pub use act::{Act, Call, Place, Script, Setting};
use definition::Answer;
use says::*;

// A case at the end of the memory: its number, the base in slot 1's DCBAA entry, the input context's pointer, and what is expected.
#[derive(Clone, Copy)]
struct Edge {
    case: u64,
    base: u64,
    pointer: u64,
    expected: Answer,
    ghost within: { pointer < 4096 },
}

impl Edge {
    fn new(case: u64, base: u64, pointer: u64, expected: Answer) -> Self
        requires { pointer < 4096 }
    {
        Edge {
            case,
            base,
            pointer,
            expected,
        }
    }

    fn setting(self) -> Setting {
        Setting {
            base: self.base,
            ..USUAL
        }
    }
}

// "Memory 4096, limit 4, DCBAAP 256, entry at 264 holding 1024", where nothing else is said.
const USUAL: Setting = Setting {
    limit: 4,
    base: 1024,
};

// An input context's pointer: the usual P, and 2^64-4.
const P: u64 = 2048;

const WRAPPING: u64 = 0xffff_ffff_ffff_fffc;

// The first 8 bytes of an input context: flags 2 to 31, to add them, and to drop and add them; flag 31, to add it.
const ADDS: u64 = 0xffff_fffc_0000_0000;

const DROPS_AND_ADDS: u64 = 0xffff_fffc_ffff_fffc;

const ADDS_31: u64 = 0x8000_0000_0000_0000;

// An endpoint's byte 4 for type 7.
const TYPE_7: u8 = 56;

// ---- calls

fn address(id: u64, pointer: u64, bsr: bool) -> Call {
    Call::AddressDevice { id, pointer, bsr }
}

fn configure(id: u64, pointer: u64) -> Call {
    Call::ConfigureEndpoint {
        id,
        pointer,
        dc: false,
    }
}

const STOP: Call = Call::StopEndpoint { id: 1, endpoint: 3 };

// ---- scripts

// A setting and N acts, which a script lends.
#[derive(Clone, Copy)]
struct Scene<const N: usize> {
    setting: Setting,
    acts: [Act; N],
}

impl<const N: usize> Scene<N> {
    fn script(&self) -> Script<'_>
        ensures { length result.acts.now ≡ N }
    {
        Script {
            setting: self.setting,
            acts: &self.acts,
        }
    }
}

fn enable(limit: u64, case: u64, expected: Answer) -> Scene<1> {
    Scene {
        setting: Setting { limit, ..USUAL },
        acts: [Act::Try(case, Call::EnableSlot, expected)],
    }
}

// Slot 1 is enabled and addressed twice; then it is configured, and endpoint 3 is stopped.
// The bytes 2176 to 2207 are 0 but for the type, and the launch stores 1 over the first copy.
fn life() -> Scene<22> {
    let acts = [
        Act::Call(Call::EnableSlot),
        Act::Try(3, address(1, P, true), ADDRESSED),
        Act::See(3, Place::Byte(1039), 8),
        Act::See(3, Place::Byte(1056), 1),
        Act::See(3, Place::Pointer, 3072),
        Act::See(3, Place::Cycle, 1),
        Act::Try(4, address(1, P, true), WRONG_STATE),
        Act::Byte(2116, 0),
        Act::Try(5, address(1, P, true), WRONG_TYPE),
        Act::Byte(2116, 32),
        Act::Try(6, address(1, P, false), ADDRESSED_AGAIN),
        Act::See(6, Place::Byte(1039), 16),
        Act::Byte(2052, 8),
        Act::Byte(2180, TYPE_7),
        Act::Try(7, configure(1, P), ADDED_3),
        Act::See(7, Place::Word(1120), 0x38_0000_0001),
        Act::See(7, Place::Word(1128), 0),
        Act::See(7, Place::Word(1136), 0),
        Act::See(7, Place::Word(1144), 0),
        Act::See(7, Place::Byte(1039), 24),
        Act::Try(8, STOP, STOPPED),
        Act::Try(8, STOP, WRONG_STATE),
    ];
    Scene {
        setting: USUAL,
        acts,
    }
}

// Address Device, BSR=0, of slot 1, just enabled.
fn addressed(edge: Edge) -> Scene<2> {
    let acts = [
        Act::Call(Call::EnableSlot),
        Act::Try(edge.case, address(1, edge.pointer, false), edge.expected),
    ];
    Scene {
        setting: edge.setting(),
        acts,
    }
}

// Configure Endpoint, DC=0, of slot 1, Addressed: endpoint 31 is added.
// "flags D=0, A=2^31 at P, and 56 at P+1028, stored by the guest just before the call"
fn added(edge: Edge) -> Scene<5> {
    let at = edge.pointer as usize;
    let acts = [
        Act::Call(Call::EnableSlot),
        Act::Call(address(1, P, false)),
        Act::Word(at, ADDS_31),
        Act::Byte(at + 1028, TYPE_7),
        Act::Try(edge.case, configure(1, edge.pointer), edge.expected),
    ];
    Scene {
        setting: edge.setting(),
        acts,
    }
}

fn wrapping() -> Scene<3> {
    let acts = [
        Act::Call(Call::EnableSlot),
        Act::Try(13, address(1, WRAPPING, false), ADDRESSED),
        Act::Try(13, configure(1, WRAPPING), OUTSIDE),
    ];
    Scene {
        setting: USUAL,
        acts,
    }
}

// ---- the most bytes stored

// A slot with all 31 endpoints. The DCBAA entries of all hold the same base, and so contexts are shared.
fn full(id: u64) -> [Act; 4]
    requires { id < 17 }
{
    [
        Act::Word(256 + 8 * id as usize, USUAL.base),
        Act::Call(Call::EnableSlot),
        Act::Call(address(id, P, false)),
        Act::Call(configure(id, P)),
    ]
}

// The input context adds endpoints 2 to 31, all of type 7, and slots 1 to 16 take it. Then slot 1 drops and adds them, and all slots are reset.
fn most_acts() -> [Act; 99] {
    // The first act, in all places until the others are written. The places are counted: a `Vec` would push, and wants the heap.
    let mut acts = [Act::Word(2048, ADDS); 99];
    let mut next = 1;
    for endpoint in 2..32 {
        acts[next] = Act::Byte(2084 + 32 * endpoint, TYPE_7);
        next += 1;
    }
    for id in 1..17 {
        acts[next..next + 4].copy_from_slice(&full(id));
        next += 4;
    }
    acts[next..].copy_from_slice(&[
        Act::Word(2048, DROPS_AND_ADDS),
        Act::Try(14, configure(1, P), REPLACED),
        Act::Try(15, Call::ResetAll, ALL_RESET),
        Act::Try(16, Call::EnableSlot, NO_SLOTS),
    ]);
    acts
}

fn most() -> Scene<99> {
    Scene {
        setting: Setting { limit: 16, ..USUAL },
        acts: most_acts(),
    }
}

// ---- all

// Lends all scripts, in the order of their cases, and answers what is answered to them. The clause says how many acts each has.
pub fn all<T, F: FnOnce([Script<'_>; 13]) -> T>(read: F) -> T
    requires { F.IsAlwaysCallable read }
    ensures { (scripts : _) × (map acts_in scripts ≡ 1 ∷ 1 ∷ 22 ∷ 2 ∷ 2 ∷ 2 ∷ 2 ∷ 5 ∷ 5 ∷ 5 ∷ 5 ∷ 3 ∷ 99 ∷ []) × F.post read scripts result }
{
    read([
        enable(4, 1, ENABLED).script(),
        enable(0, 2, NO_SLOTS).script(),
        life().script(),
        addressed(Edge::new(9, 4032, P, ADDRESSED)).script(),
        addressed(Edge::new(9, 4033, P, OUTSIDE)).script(),
        addressed(Edge::new(10, USUAL.base, 4000, ADDRESSED)).script(),
        addressed(Edge::new(10, USUAL.base, 4001, OUTSIDE)).script(),
        added(Edge::new(11, 3072, P, ADDED_31)).script(),
        added(Edge::new(11, 3073, P, OUTSIDE)).script(),
        added(Edge::new(12, USUAL.base, 3040, ADDED_31)).script(),
        added(Edge::new(12, USUAL.base, 3041, OUTSIDE)).script(),
        wrapping().script(),
        most().script(),
    ])
}
