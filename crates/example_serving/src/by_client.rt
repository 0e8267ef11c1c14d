//! What was told, client by client.

ghost use Rattle.std.specs.Prelude.{◌≡◌, ◌≤◌, map, vec_len, IfOk};
ghost use Rattle.example_serving.specs.Serving.{said_in, said_to_client, said_to_others, AreToClients};

use crate::told::Told;
use std::alloc::Global;
use values::NoMemory;

/// What was told to a client, in its order, and what was told to others.
fn apart(alloc: Global, told: Vec<Told>, client: u8) -> Result<(Vec<Told>, Vec<Told>), NoMemory>
    ensures own { IfOk result (λ r. map said_in r.0.items ≡ said_to_client client (map said_in told.items)) }
    ensures others { IfOk result (λ r. map said_in r.1.items ≡ said_to_others client (map said_in told.items)) }
{
    let mut own = Vec::new(alloc);
    let mut others = Vec::new(alloc);
    for told in told {
        if told.client == client {
            own.push(told)?;
        } else {
            others.push(told)?;
        }
    }
    Ok((own, others))
}

/// What was told to each of `clients` clients, in its order: a list a client, in the order of their numbers from 1.
#[tactic(auto, using(crate::proofs::Apart::others_keep, crate::proofs::Apart::lists_more))]
pub fn told_by_client(
    alloc: Global,
    told: Vec<Told>,
    clients: u8,
) -> Result<Vec<Vec<Told>>, NoMemory>
    requires { clients ≤ 4 }
    ensures each { IfOk result (λ lists. AreToClients 1 lists.items (map said_in told.items)) }
    ensures count { IfOk result (λ lists. vec_len lists ≡ clients) }
{
    let mut lists = Vec::new(alloc);
    let mut rest = told;
    for client in 0..clients {
        let (own, others) = apart(alloc, rest, client + 1)?;
        lists.push(own)?;
        rest = others;
    }
    Ok(lists)
}
