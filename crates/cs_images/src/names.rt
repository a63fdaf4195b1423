// Names in which the place of each is found at once.
ghost use Rattle.std.specs.Prelude.{◌≡◌, ℕ, List, IfOk, OnOk, Some, None, map, bytes_eq, if◌then◌else◌};
ghost use Rattle.std.specs.Option.{option_or};
ghost use Rattle.std.specs.HashMap.{get_by};
ghost use Rattle.cs_images.specs.Names.{is_among, memory_names, place_of};

use crate::named::NamedImages;
use cs_cells::Class;
use cs_net::Cell;
use std::alloc::{AllocError, Global};
use std::collections::HashMap;
use std::marker::Model;

// Notes the place of a name, unless it has one.
fn note<'a>(
    places: &mut HashMap<&'a str, usize>,
    name: &'a str,
    place: usize,
) -> Result<(), AllocError>
    ensures { OnOk result ((n : List ℕ) → get_by (λ k. bytes_eq n k.now) places.new
        ≡ option_or (get_by (λ k. bytes_eq n k.now) places.old) (if bytes_eq name.now n then Some place else None)) }
{
    if !places.contains_key(name) {
        places.insert(name, place)?;
    }
    Ok(())
}

fn first_places<'a>(alloc: Global, names: &[&'a str]) -> Result<HashMap<&'a str, usize>, AllocError>
    ensures { IfOk result (λ places. (name : List ℕ)
        → get_by (λ k. bytes_eq name k.now) places ≡ place_of name (map (λ n. n.now) names.now)) }
{
    let mut places = HashMap::new(alloc);
    for (place, name) in names.iter().enumerate() {
        note(&mut places, *name, place)?;
    }
    Ok(places)
}

fn memory_names<'a>(alloc: Global, cells: &'a [Cell]) -> Result<Vec<&'a str>, AllocError>
    ensures { IfOk result (λ v. map (λ n. n.now) v.items ≡ memory_names cells.now) }
{
    let mut names = Vec::new(alloc);
    for cell in cells {
        if matches!(cell.class, Class::Memory) {
            names.push(cell.name.as_str())?;
        }
    }
    Ok(names)
}

fn image_names<'a>(alloc: Global, images: &'a [NamedImages]) -> Result<Vec<&'a str>, AllocError>
    ensures { IfOk result (λ v. map (λ n. n.now) v.items ≡ map (λ n. n.name) images.now) }
{
    let mut names = Vec::new(alloc);
    for named in images {
        names.push(named.name.as_str())?;
    }
    Ok(names)
}

/// Names; contracts see the list of them.
#[derive(Drop)]
pub(crate) struct Names<'a> {
    names: Vec<&'a str>,
    places: HashMap<&'a str, usize>,
}

impl<'a> Model for Names<'a> {
    ghost use Rattle.std.specs.Prelude.{◌≡◌, ℕ, List, bytes_eq, map};
    ghost use Rattle.std.specs.HashMap.{get_by};
    ghost use Rattle.cs_images.specs.Names.{place_of};

    ghost Value = { List (List ℕ) };

    ghost view = { λ n. map (λ k. k.now) n.names.items };

    ghost invariant = { λ n. (name : List ℕ)
        → get_by (λ k. bytes_eq name k.now) n.places ≡ place_of name (map (λ k. k.now) n.names.items) };
}

impl<'a> Names<'a> {
    fn new(alloc: Global, names: Vec<&'a str>) -> Result<Names<'a>, AllocError>
        ensures { IfOk result (λ found. found ≡ map (λ n. n.now) names.entry.items) }
    {
        let places = first_places(alloc, names.as_slice())?;
        Ok(Names { names, places })
    }

    /// The names of the cells that are memories.
    pub fn of_memory_cells(alloc: Global, cells: &'a [Cell]) -> Result<Names<'a>, AllocError>
        ensures { IfOk result (λ names. names ≡ memory_names cells.now) }
    {
        Names::new(alloc, memory_names(alloc, cells)?)
    }

    /// The names of some images.
    pub fn of_images(alloc: Global, images: &'a [NamedImages]) -> Result<Names<'a>, AllocError>
        ensures { IfOk result (λ names. names ≡ map (λ n. n.name) images.now) }
    {
        Names::new(alloc, image_names(alloc, images)?)
    }

    /// The first place of a name, and None where it isn't among them.
    pub fn place(&self, name: &str) -> Option<usize>
        ensures { result ≡ place_of name.now self.now }
    {
        self.places.get(name).copied()
    }

    pub fn contains(&self, name: &str) -> bool
        ensures { result ≡ is_among self.now name.now }
    {
        self.place(name).is_some()
    }
}
