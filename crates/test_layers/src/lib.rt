//! Tests of the layers below the scheduler, by tables: tokens, lock modes, footprints, plans, queues of lock requests,
//! the lock tree, rows, requests that are tried again, and devices.
#![tactic(auto)]

#[cfg(test)]
mod chance;
#[cfg(test)]
mod declarations;
#[cfg(test)]
mod footprints;
#[cfg(test)]
mod interruptions;
#[cfg(test)]
mod lock_modes;
#[cfg(test)]
mod lock_queues;
#[cfg(test)]
mod plain_locks;
#[cfg(test)]
mod plans;
#[cfg(test)]
mod request_queues;
#[cfg(test)]
mod stored_rows;
#[cfg(test)]
mod test_world;
#[cfg(test)]
mod tokens;
#[cfg(test)]
mod tried_again;
#[cfg(test)]
mod worked_queues;
