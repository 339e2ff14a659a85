// Descriptors of fields: where one stands in its line, whether the field may have it, and the number or the sizes that it says.
// Nothing here knows a state or the other fields given, only the dimension.
#![tactic(auto)]

pub mod check;
pub mod place;
