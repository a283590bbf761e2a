//! Theorems about every history, each the contract of an empty function.
ghost use Rattle.calls_local.specs.Laws as laws;
ghost use Rattle.calls_local.specs.Renamings.{NumbersAreNames};
ghost use Rattle.calls_local.specs.Databases.{ListsGoByNumbers, DatabasesGoByNumbers};

/// States what holds of the completed and pending calls of every history.
///
/// Their positions are in order, and each call is an operation of its object.
pub fn histories_have_calls()
    ensures { laws.HistoriesHaveCalls }
{}

/// States that the events of one object are a history, whose calls are those of that object.
pub fn a_part_is_a_history()
    ensures { laws.APartIsAHistory }
{}

/// States that a linearization, restricted to one object, is one of that object's calls.
pub fn parts_are_linearized()
    ensures { laws.PartsAreLinearized }
{}

/// States that linearizations of each object's calls, merged by points, are one of all calls.
pub fn parts_make_whole()
    ensures { laws.PartsMakeWhole }
{}

/// States that a linearization by later responses is one by answers.
pub fn responses_become_answers()
    ensures { laws.ResponsesBecomeAnswers }
{}

/// States that a linearization by answers is one by later responses.
///
/// A later response counts as one at the end of the history.
pub fn answers_become_responses()
    ensures { laws.AnswersBecomeResponses }
{}

/// States that a history is linearizable exactly when the events of each object are.
pub fn locality()
    ensures { laws.Locality }
{}

/// States that a history is linearizable exactly when the events of each object have an order.
///
/// It is an order of the object's kind, which is what a checker of one object decides.
pub fn linearizable_by_orders()
    ensures { laws.LinearizableByOrders }
{}

/// States that a history of one object is linearizable exactly when it has an order of its kind.
pub fn one_object()
    ensures { laws.OneObject }
{}

/// States that each prefix of a linearizable history is linearizable.
pub fn a_prefix_is_linearizable()
    ensures { laws.APrefixIsLinearizable }
{}

/// States that the calls of an order of one object have linearization points, which never fall.
///
/// The point of each call is between its invocation and its response.
pub fn order_has_points()
    ensures { laws.OrderHasPoints }
{}

/// States `order_has_points` for the calls of one object among those of many.
pub fn order_on_has_points()
    ensures { laws.OrderOnHasPoints }
{}

/// States that calls keep the real-time order if their linearization points never fall.
///
/// The point of each call has to be between its invocation and its response.
pub fn points_keep_the_order()
    ensures { laws.PointsKeepTheOrder }
{}

/// States that placed orders of all objects, merged by points, are a placed order of all calls.
pub fn placed_parts_make_whole()
    ensures { laws.PlacedPartsMakeWhole }
{}

/// States that whether a history is linearizable does not depend on how its values are numbered.
///
/// These are the values of cells and databases.
pub fn numbers_are_names()
    ensures { NumbersAreNames }
{}

/// States that calls of a database are legal over lists exactly when they are over list numbers.
///
/// Different lists have to have different numbers.
pub fn lists_go_by_numbers()
    ensures { ListsGoByNumbers }
{}

/// States `lists_go_by_numbers` from the list of zeros on, with which each database begins.
///
/// Its number is 0.
pub fn databases_go_by_numbers()
    ensures { DatabasesGoByNumbers }
{}
