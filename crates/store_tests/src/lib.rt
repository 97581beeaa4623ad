//! Tests alone: the calls of the stores of a situation and of the choice among what instances offer, on small cases worked by hand.
#![tactic(auto)]

#[cfg(test)]
mod delay_timers_calls;
#[cfg(test)]
mod link_ops_calls;
#[cfg(test)]
mod module_tree_calls;
#[cfg(test)]
mod offer_table_calls;
#[cfg(test)]
mod queue_store_calls;
#[cfg(test)]
mod run_history_calls;
#[cfg(test)]
mod selection_calls;
