//! What holds of every log that an end can stand for, and of every history of many ends: of their
//! sessions, and of the messages in their flows. The functions do nothing: the contract of each is
//! its law. They stand in the crates that prove them, and are passed on.

pub use endpoint_handing::laws::{contexts_begin_once, hands_over};
pub use endpoint_laws::laws::{
    admissible_keyings_bear, agreed, agreed_logs, every_log_is_lawful,
    every_message_is_handed_over, flows_are_within, flows_hold_few, groups_of_the_log,
    keyings_without_cause_open, ledger_of_the_log, no_ack_is_owed, pieces_hold_few,
    rows_are_within, state_of_the_log, uses_are_within, what_is_drawn_once_is_stated_once,
};
pub use flow_exchange::laws::exchange;
