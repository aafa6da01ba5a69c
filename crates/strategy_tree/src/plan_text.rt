//! A plan in text: its lines, as reports print them.
ghost use Rattle.std.specs.Prelude.{◌≡◌, ◌<◌, ◌++◌, OnOk, OnErr};
ghost use Rattle.card_letters.specs.Letters.{letters_of};
ghost use Rattle.strategy_tree.specs.PlanMeaning.{plan_of, replies_of};
ghost use Rattle.byte_text.specs.Lines.{line_of};
ghost use Rattle.strategy_tree.specs.PlanText.{hear_line, plan_text, replies_text, HasCards, HaveCards};

use crate::plan::{Plan, Reply};
use byte_text::Text;
use card_letters::letters_of;
use card_sets::Card;
use std::alloc::{AllocError, Global};

impl Plan {
    /// Appends the lines of the plan, each node before those below it: `stop`, `play` with a card,
    /// or `hear` with the number of replies, and then for each reply `on` with the defender's card
    /// and the lines of its plan. If an allocation fails, the text is unchanged.
    pub fn lines(&self, alloc: Global, out: &mut Text) -> Result<(), AllocError>
        ensures appended { OnOk result (out.new ≡ out.old ++ plan_text (plan_of self.now)) }
        ensures cards { OnOk result (HasCards (plan_of self.now)) }
        ensures unchanged { OnErr result (out.new ≡ out.old) }
    {
        let mut lines = Text::new(alloc);
        write_plan(self, alloc, &mut lines)?;
        out.push(lines.bytes())
    }
}

// Appends the lines of a plan, or some of them if an allocation fails.
#[cycle(write)]
fn write_plan(plan: &Plan, alloc: Global, out: &mut Text) -> Result<(), AllocError>
    ensures appended { OnOk result (out.new ≡ out.old ++ plan_text (plan_of plan.now)) }
    ensures cards { OnOk result (HasCards (plan_of plan.now)) }
{
    match plan {
        Plan::Stop => out.push(b"stop\n"),
        Plan::Play(card, rest) => {
            write_card(b"play ", *card, out)?;
            write_plan(rest, alloc, out)
        }
        Plan::Hear(replies) => {
            write_hear(replies.len(), alloc, out)?;
            write_replies(replies, alloc, out)
        }
    }
}

// The same of the replies to a defender.
#[cycle(write)]
fn write_replies(replies: &[Reply], alloc: Global, out: &mut Text) -> Result<(), AllocError>
    ensures appended { OnOk result (out.new ≡ out.old ++ replies_text (replies_of replies.now)) }
    ensures cards { OnOk result (HaveCards (replies_of replies.now)) }
{
    for reply in replies {
        write_card(b"on ", reply.card, out)?;
        write_plan(&reply.plan, alloc, out)?;
    }
    Ok(())
}

// Appends a line with a word and a card.
fn write_card(word: &[u8], card: Card, out: &mut Text) -> Result<(), AllocError>
    ensures appended { OnOk result (out.new ≡ out.old ++ line_of (word.now ++ letters_of card)) }
    ensures one_of_52 { card < 52 }
{
    let _number = card.number();
    out.push(word)?;
    out.push(&letters_of(card))?;
    out.push(b"\n")
}

#[tactic(auto, unfolding(crate::specs::PlanText::hear_line))]
fn write_hear(count: usize, alloc: Global, out: &mut Text) -> Result<(), AllocError>
    ensures { OnOk result (out.new ≡ out.old ++ hear_line count) }
{
    out.push(b"hear ")?;
    out.push_number(alloc, count as u64)?;
    out.push(b"\n")
}
