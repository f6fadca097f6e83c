// The quotes in hand. They are taken and put by index: nothing is known of what a slice's `get_mut` wrote. A struct of hand
// and slot would only lend both on.
ghost use Rattle.std.specs.Prelude.{◌≡◌};
ghost use Rattle.runs.specs.Hands.{quote_at, without, holding};

use recovery::Quote;

// The quote in a slot, taken out of it; none if there is no such slot or no quote in it.
pub(crate) fn take_quote(hand: &mut [Option<Quote>], slot: usize) -> Option<Quote>
    ensures quote { result ≡ quote_at hand.old slot }
    ensures hand { hand.new ≡ without hand.old slot }
{
    if slot >= hand.len() {
        return None;
    }
    hand[slot].take()
}

// A quote into a slot; one that lies there is let go. With no such slot nothing is changed.
pub(crate) fn put_quote(hand: &mut [Option<Quote>], slot: usize, quote: Quote)
    ensures { hand.new ≡ holding hand.old slot quote }
{
    if slot < hand.len() {
        hand[slot] = Some(quote);
    }
}
