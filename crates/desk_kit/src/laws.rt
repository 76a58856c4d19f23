//! Laws of the definitions.
ghost use Rattle.desk_kit.specs.Laws.{HandleAndStatusIsOf, NumberAndStatusIsOf, OctetsReadIsOf};
ghost use Rattle.desk_kit.specs.ResponseParts.{PointersSuit, SyntaxSuits, UuidSuits};

/// A handle and a status are a response of each operation that answers these.
pub fn handle_and_status_is_of()
    ensures { HandleAndStatusIsOf }
{}

/// A number of 64 bits and a status are a response of each operation that answers these.
pub fn number_and_status_is_of()
    ensures { NumberAndStatusIsOf }
{}

/// A handle, a number of octets, these and a status are a response of each operation that answers
/// them, where the octets are at most as many as the request's parameter says.
pub fn octets_read_is_of()
    ensures { OctetsReadIsOf }
{}

/// A UUID suits its type, in a table whose type 0 it is.
pub fn uuid_suits()
    ensures { UuidSuits }
{}

/// The identifier of an interface suits its type.
pub fn syntax_suits()
    ensures { SyntaxSuits }
{}

/// Pointers to the items of the heap from a number on suit pointers to a shape, where each of the
/// items suits it.
pub fn pointers_suit()
    ensures { PointersSuit }
{}
