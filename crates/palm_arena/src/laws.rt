//! Laws of the definitions. Each function has an empty body: its contract is the law.

ghost use Rattle.palm_arena.specs.Laws.{PutStands, OthersStay, NoneLentAfterPut, NoneLentAfterReturn};

/// What is put at an id stands there, and what stands at another id stays.
pub fn places_hold()
    ensures put { PutStands }
    ensures others { OthersStay }
{}

/// Where nothing is lent, nothing is after a place was put that isn't lent, or a node was lent and given back.
pub fn none_lent_stays()
    ensures put { NoneLentAfterPut }
    ensures returned { NoneLentAfterReturn }
{}
