//! What holds of a plant of which a part is lent. The functions do nothing: their contracts are the laws.
ghost use Rattle.std.specs.Prelude.{◌≡◌, ℕ, ◌+◌, ◌<◌, if◌then◌else◌, true, false, List, length, take, Some};
ghost use Rattle.std.specs.List.{list_any};
ghost use Rattle.panic_handover.specs.HandOver.{hand_over_in};
ghost use Rattle.phys_memory.specs.Halves.{first_own, is_among, is_own, own_half, words_beside, words_from};
ghost use Rattle.phys_memory.specs.Memory.{words_of};
ghost use Rattle.ow_plant.specs.Lent.{LentState, lent_cursor_at, lent_of, lent_painted, lent_put, lent_refused, lent_refuses, lent_stored, with_lent};
ghost use Rattle.ow_plant.specs.Points.{has_come, is_in, is_missed};
ghost use Rattle.ow_plant.specs.State.{EntersPanic, IsArmed, PlantState, handed_over, refuses, store_refused, with_cursor_at, with_painted, with_put, with_stored};
ghost use Rattle.ow_plant.specs.declared.points.PanicPoint.{PanicPoint};
ghost use Rattle.ow_plant.specs.declared.refusal.Refusal.TheVariants.{Store};

/// What a kernel that takes over stores into what is lent is what the plant's own calls store: the same changes, counted
/// alike, and refused alike.
#[tactic(auto, using(crate::proofs::Loans::stored_alike, crate::proofs::Loans::put_alike, crate::proofs::Loans::painted_alike, crate::proofs::Loans::cursor_alike))]
pub const fn own_stores_are_stores()
    ensures refuses { (s : PlantState) (lent : LentState) → refuses (with_lent s lent) ≡ lent_refuses s.points s.traps lent }
    ensures refused { (s : PlantState) (lent : LentState) → store_refused (with_lent s lent) ≡ with_lent s (lent_refused lent Store) }
    ensures words { (s : PlantState) (lent : LentState) (frame word value : ℕ)
        → IsArmed s → length lent.own ≡ length (own_half s.memory s.live)
        → is_among (first_own s.memory s.live) lent.own frame ≡ true → word < 1024
        → with_stored (with_lent s lent) frame word value ≡ with_lent s (lent_stored lent (first_own s.memory s.live) frame word value) }
    ensures bytes { (s : PlantState) (lent : LentState) (tty byte : ℕ) → with_put (with_lent s lent) tty byte ≡ with_lent s (lent_put lent tty byte) }
    ensures rows { (s : PlantState) (lent : LentState) (tty row : ℕ) (text : List ℕ) → with_painted (with_lent s lent) tty row text ≡ with_lent s (lent_painted lent tty row text) }
    ensures cursors { (s : PlantState) (lent : LentState) (tty row col : ℕ) → with_cursor_at (with_lent s lent) tty row col ≡ with_lent s (lent_cursor_at lent tty row col) }
{}

/// What a kernel that takes over leaves in its half leaves every word of the dead one as it was, and the plant armed, where
/// the half has its length; and each store keeps its length.
#[tactic(auto, using(crate::proofs::Loans::words_apart, crate::proofs::Loans::beside_stays, crate::proofs::Loans::stays_armed, crate::proofs::Loans::length_stored))]
pub const fn dead_words_stay()
    ensures beside { (s : PlantState) (lent : LentState) → IsArmed s → length lent.own ≡ length (own_half s.memory s.live)
        → words_beside (with_lent s lent).memory s.live ≡ words_beside s.memory s.live }
    ensures words { (s : PlantState) (lent : LentState) (frame word : ℕ) → IsArmed s → length lent.own ≡ length (own_half s.memory s.live) → word < 1024
        → words_of (with_lent s lent).memory frame word
        ≡ (if is_own s.memory s.live frame then words_from (first_own s.memory s.live) lent.own frame word else words_of s.memory frame word) }
    ensures armed { (s : PlantState) (lent : LentState) → IsArmed s → length lent.own ≡ length (own_half s.memory s.live) → IsArmed (with_lent s lent) }
    ensures length { (lent : LentState) (first frame word value : ℕ) → length (lent_stored lent first frame word value).own ≡ length lent.own }
{}

/// What is lent and given back unchanged leaves the plant as it was, and what is given back is what would be lent again.
#[tactic(auto, using(crate::proofs::Loans::given_back, crate::proofs::Loans::lent_again))]
pub const fn what_is_lent_is_given_back()
    ensures unchanged { (s : PlantState) → with_lent s (lent_of s) ≡ s }
    ensures again { (s : PlantState) (lent : LentState) → lent_of (with_lent s lent) ≡ lent }
{}

/// What a panic hands over is read again, and it leaves the plant armed.
#[tactic(auto, using(crate::proofs::Loans::armed_again))]
pub const fn panics_hand_over()
    ensures read { (old new : PlantState) → EntersPanic old new → hand_over_in (take 40 new.memory.boot) ≡ Some (handed_over old) }
    ensures armed { (old new : PlantState) → EntersPanic old new → IsArmed old → IsArmed new }
{}

/// A panic that was entered is over: no point of its trap, or of one before, is to come.
pub const fn entered_panics_are_over()
    ensures of_trap { (old new : PlantState) → EntersPanic old new → list_any (is_in new.traps) new.points ≡ false }
    ensures before { (old new : PlantState) → EntersPanic old new → list_any (has_come new.traps) new.points ≡ false }
{}

/// The points that a later trap misses are those that had come by the one before it; and none has come by the next trap
/// where none had come so far and the next one has none.
pub const fn panics_come_in_their_traps()
    ensures missed { (trap : ℕ) (points : List PanicPoint) → list_any (is_missed (trap + 1)) points ≡ list_any (has_come trap) points }
    ensures next { (trap : ℕ) (points : List PanicPoint) → list_any (has_come trap) points ≡ false → list_any (is_in (trap + 1)) points ≡ false
        → list_any (has_come (trap + 1)) points ≡ false }
{}
