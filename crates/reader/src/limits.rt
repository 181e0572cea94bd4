// The limits on a text, which specs/Limits.antt names alike, and a number that stays for whoever names it.

// The bytes of a rule or of a condition.
pub const TEXT_LIMIT: usize = 255;

// The nodes of a rule or of a condition.
pub const NODE_LIMIT: usize = 64;

// The temporal operators of a rule.
pub const OPERATOR_LIMIT: usize = 5;

// What a field of a node's word was below while nodes were packed into words. Nothing here reads it.
pub const FIELD_SIZE: usize = TEXT_LIMIT + 1;
