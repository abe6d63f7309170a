//! Laws of the definitions of decks. Each function has an empty body: its contract is the law.

ghost use Rattle.palm_deck.specs.Laws.{DecksReadBack};

/// What `write_deck` writes of rows reads as a Set for each of them, in their order.
pub fn decks_read_back()
    ensures { DecksReadBack }
{}
