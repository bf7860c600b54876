// The least choice of local Cliffords, part after part of the graphs.
#![tactic(auto)]

pub mod answer;
mod component;
mod part_records;
mod sets;

ghost use Rattle.std.specs.Prelude.{[], ◌≤◌, is_some, unwrap_or};
ghost use Rattle.comparison.specs.internal.Equations.{EmptyFrom, equations_in};
ghost use Rattle.comparison.specs.internal.Searches.{LeastAnswer};
ghost use Rattle.comparison.specs.internal.Setting.{held_generators};
ghost use Rattle.comparison_parts.specs.internal.Components.{Component, ComponentAnswer, SoundPair, record_held};

use crate::component::{compare_listed, place};
use crate::part_records::vertices;
use crate::sets::{part, spread};
use words::{mask, smallest};

// One part compared: none, where an edge of the second graph leaves it or it has no choice; else its least choice is put
// beside those of other parts. By a table without equations, which it leaves so.
fn compare_component(
    table: &mut [[u64; 4]; 256],
    n: usize,
    neighbours: &[u64],
    codes: &[u8],
    neighbours2: &[u64],
    codes2: &[u8],
    component: u64,
    choice: &mut [u8; 64],
) -> Option<()>
    requires sound_pair { SoundPair n neighbours.now codes.now neighbours2.now codes2.now }
    requires component { Component n neighbours.now component × EmptyFrom 0 (equations_in table.old) }
    ensures component_answer { ComponentAnswer n (record_held n neighbours.now codes.now)
        (record_held n neighbours2.now codes2.now) component choice.old (is_some result) choice.new }
    ensures empty_from { EmptyFrom 0 (equations_in table.new) }
{
    if spread(neighbours2, component) != component {
        return None;
    }
    let listed = vertices(component);
    let k = listed.count;
    let at = &listed.at[..k];
    let mut words = [0u64; 64];
    let mut numbers = [0u8; 64];
    let mut words2 = [0u64; 64];
    let mut numbers2 = [0u8; 64];
    let chosen = compare_listed(
        table,
        n,
        neighbours,
        codes,
        neighbours2,
        codes2,
        component,
        at,
        &mut words[..k],
        &mut numbers[..k],
        &mut words2[..k],
        &mut numbers2[..k],
    )?;
    place(at, &chosen, choice);
    Some(())
}

// The least choice that carries the group of the first record onto that of the second.
pub fn compare_parts(
    n: usize,
    neighbours: &[u64],
    codes: &[u8],
    neighbours2: &[u64],
    codes2: &[u8],
) -> Option<[u8; 64]>
    requires { (1 ≤ n) × SoundPair n neighbours.now codes.now neighbours2.now codes2.now }
    ensures { LeastAnswer n (held_generators n neighbours.now codes.now)
        (held_generators n neighbours2.now codes2.now) (is_some result) (unwrap_or result []) }
{
    let mut table = [[0u64; 4]; 256];
    let mut choice = [0u8; 64];
    let mut rest = mask(n);
    while rest != 0 {
        let q = smallest(rest);
        let component = part(neighbours, q);
        compare_component(
            &mut table,
            n,
            neighbours,
            codes,
            neighbours2,
            codes2,
            component,
            &mut choice,
        )?;
        rest = rest ^ (rest & component);
    }
    Some(choice)
}
