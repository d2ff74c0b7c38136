//! A pointer that owns a bank, and one that owns a player.
ghost use Rattle.std.specs.Prelude.{◌≡◌, ◌∷◌, ℕ, List, length};
ghost use Rattle.bank_parts.specs.declared.parts.Parts.{Parts};
ghost use Rattle.mixer.specs.declared.playing.PlayingVoice.{PlayingVoice};
ghost use Rattle.c_loans.specs.Owned.{bank_owns, banks_coded, next, player_owns, players_coded, voices_of};
ghost use Rattle.c_loans.specs.Starts.{IsPlayed, IsStarted, IsStartedOn};

use crate::parts::Parts;
use bank_core::Bank;
use base_progress::NoReports;
use mixer::Player;
use script_notes::Note;
use std::alloc::Global;
use std::marker::Model;

/// A pointer to a bank, which it owns with a share of the right to end the lifetime for which the bank borrows its file.
/// That lifetime has no name in a type: it is the atom `loan`. The share has been halved `top` times.
#[repr(C)]
#[derive(Drop)]
pub struct BankPtr {
    at: *mut u8,
    alloc: Global,
    pub ghost held: { List Parts } by { banks_coded },
    pub ghost loan: { ℕ },
    pub ghost top: { ℕ },
}

impl Model for BankPtr {
    ghost also_owns = { λ s. bank_owns s.alloc s.at s.held s.loan s.top };
}

/// A pointer to a player, which it owns with a share of the lifetime of each bank whose notes it started: for each
/// start, the bank's atom, and how often the share had been halved.
#[repr(C)]
#[derive(Drop)]
pub struct PlayerPtr {
    at: *mut u8,
    alloc: Global,
    pub ghost held: { List (List PlayingVoice) } by { players_coded },
    pub ghost toks: { List (ℕ × ℕ) },
}

impl Model for PlayerPtr {
    ghost also_owns = { λ s. player_owns s.alloc s.at s.held s.toks };
}

/// A note to start, or to press if it has an id, and the status after it: 0 if it was started, 2 if an allocation failed,
/// 3 if there is no note.
#[derive(Drop)]
pub struct Call {
    pub alloc: Global,
    pub note: Option<Note>,
    pub id: Option<u64>,
    pub status: i32,
}

/// A player and a bank.
#[derive(Drop)]
pub struct Pair {
    pub player: PlayerPtr,
    pub bank: BankPtr,
}

/// Starts a note of the bank. From then on the player has half of the bank's share.
pub fn start(player: PlayerPtr, bank: BankPtr, call: &mut Call) -> Pair
    requires { (length player.held ≡ 1) × (length bank.held ≡ 1) }
    ensures { (length result.player.held ≡ 1) × (result.bank.held ≡ bank.held) × IsStartedOn bank.held (voices_of player.held) call.old (voices_of result.player.held) call.new × (result.player.toks ≡ (bank.loan, next bank.top) ∷ player.toks) × (result.bank.loan ≡ bank.loan) × (result.bank.top ≡ next bank.top) }
{
    let PlayerPtr { at: player, alloc } = player;
    let BankPtr { at, alloc: heap } = bank;
    let Parts { ptr, alloc } = start_parts(
        Parts {
            ptr: player.cast::<Player<'_>>(),
            alloc,
        },
        unsafe { &*at.cast::<Bank<'_>>() },
        call,
    );
    Pair {
        player: PlayerPtr {
            at: ptr.cast::<u8>(),
            alloc,
        },
        bank: BankPtr { at, alloc: heap },
    }
}

/// Plays the next frames, at 44,100 Hz: left and right values in turn. An odd number of values plays nothing.
pub fn play(player: PlayerPtr, out: &mut [i16]) -> PlayerPtr
    requires { length player.held ≡ 1 }
    ensures { (length result.held ≡ 1) × (result.toks ≡ player.toks) × IsPlayed (voices_of player.held) out.old (voices_of result.held) out.new }
{
    let PlayerPtr { at, alloc } = player;
    let Parts { ptr, alloc } = play_parts(
        Parts {
            ptr: at.cast::<Player<'_>>(),
            alloc,
        },
        out,
    );
    PlayerPtr {
        at: ptr.cast::<u8>(),
        alloc,
    }
}

// Both calls of the mixer, at any lifetime: `play` and `start` call them at the meet of the player's lifetimes.

fn play_parts<'a>(parts: Parts<Player<'a>, Global>, out: &mut [i16]) -> Parts<Player<'a>, Global>
    ensures { IsPlayed parts.entry.value out.old result.value out.new }
{
    let mut player = parts.into_box();
    if out.len() % 2 == 0 {
        player.block(out);
    }
    Parts::of(player)
}

fn start_parts<'a, 's>(
    parts: Parts<Player<'a>, Global>,
    bank: &'s Bank<'a>,
    call: &mut Call,
) -> Parts<Player<'a>, Global>
    ensures { IsStarted bank.now parts.entry.value call.old result.value call.new }
{
    let mut player = parts.into_box();
    let status = match &call.note {
        Some(note) => {
            let started = match call.id {
                Some(id) => player.press(call.alloc, bank, note, id, &mut NoReports),
                None => player.start(call.alloc, bank, note),
            };
            match started {
                Ok(()) => 0,
                Err(_) => 2,
            }
        }
        None => 3,
    };
    call.status = status;
    Parts::of(player)
}
