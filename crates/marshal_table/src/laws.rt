//! Laws of the table of an interface: nothing is lost, and its shapes are those of the types by which the
//! rules judge.
ghost use Rattle.marshal_table.specs.Laws.{EachOperationIsListed, EachHandleIsListed, NothingStandsIn};
ghost use Rattle.marshal_table.specs.Suits.{BodiesSuit, OperationsSuit};

/// Each operation of an interface is in its table, in order.
pub fn each_operation_is_listed()
    ensures { EachOperationIsListed }
{}

/// The handles of each of its operations are those of its parameters, in order.
pub fn each_handle_is_listed()
    ensures { EachHandleIsListed }
{}

/// Each name that the outline of an interface that keeps the rules reads stands for something: a type, a
/// tag or a constant that is declared before, a parameter, a member. Each conformant array has a size,
/// and the interface a uuid.
pub fn nothing_stands_in()
    ensures { NothingStandsIn }
{}

/// The parameters and the result of each operation have shapes in the table that suit the types by which
/// the rules judge them.
pub fn operations_suit()
    ensures { OperationsSuit }
{}

/// The types in a table are the bodies of its structures and unions, in the order in which they end. Each
/// declarator of a body has a shape there that suits the type by which the rules judge it.
pub fn bodies_suit()
    ensures { BodiesSuit }
{}
