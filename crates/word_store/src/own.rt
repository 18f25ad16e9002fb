//! The half of a kernel that takes over, as memory whose words are stored one by one.
use crate::storing::WordStore;
use ow_base::Panicked;
use ow_plant::Own;

/// The own half. A store is able while no refusal stands, and may be refused only where a panic is to come in the trap that
/// was begun last. The rest is where the half lies, how many words it has, and the terminals.
impl WordStore for Own<'_> {
    ghost use Rattle.word_store.specs.Own.{OwnRest, is_own_able, may_refuse_own, rest_of_own};

    ghost Rest = { OwnRest };

    ghost rest = { rest_of_own };

    ghost able = { is_own_able };

    ghost refusal = { λ own. own.lent.now.refusal };

    ghost made = { λ own. own.lent.now.stores };

    ghost place = { λ own. own.lent.ghost_name };

    ghost may_refuse = { may_refuse_own };

    fn store(&mut self, frame: u32, word: u32, value: u32) -> Result<(), Panicked> {
        Own::store(self, frame, word, value)
    }
}
