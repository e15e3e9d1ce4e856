// Stretches of instructions of the running thread alone: the machine's inner loop. It changes the thread's context and
// the store, and nothing else, so that the context stays in the processor's registers. An instruction that isn't
// carried out ends it, with nothing changed: what then is to be done is not for this loop. It is called from two
// places, and so the compiler leaves it a function of its own.
ghost use Rattle.std.specs.Prelude.{◌≤◌};
ghost use Rattle.engine.specs.Contract.{Housed, Stretched, context_at};

use crate::cards::Card;
use crate::reached::Reached;
use machine::Context;

// Runs thread `t` for at most `m` of a card's instructions; for none where the card isn't unpacked. The context comes
// as three numbers: a struct would go by way of memory.
pub fn stretch(
    card: &Card,
    store: &mut [i32],
    size: usize,
    t: usize,
    pc: usize,
    cells: usize,
    fp: usize,
    m: usize,
) -> Reached<Context>
    requires size_bound { size ≤ 32 }
    requires housed { Housed size store.old t (context_at pc cells fp) }
    ensures { Stretched size card.now.code.now m store.old t (context_at pc cells fp)
        store.new result }
{
    let words = card.words;
    let mut context = Context { pc, cells, fp };
    for done in 0..m {
        let left = m - done;
        let pc = context.pc;
        if words.len() <= pc {
            return Reached { at: context, left };
        }
        let past = Context {
            pc: pc + 1,
            ..context
        };
        let Some(after) = local::execute(store, size, t, words.len(), past, words[pc]) else {
            return Reached { at: context, left };
        };
        context = after;
    }
    Reached {
        at: context,
        left: 0,
    }
}
