//! The cells of a cluster.
ghost use Rattle.std.specs.Prelude.{◌≡◌, ◌≤◌, ◌↔◌, length, map, IfSome, None};
ghost use Rattle.fr_base.specs.declared.place.NodeId.TheVariants as node;
ghost use Rattle.fr_runtime_station.specs.Named.{cells_named};

use crate::station::Station;
use fr_base::Node;
use fr_register::Cell;

/// The cells of a cluster, each in its place.
#[derive(Drop)]
pub(crate) struct Cells<C: Node<Plain = Cell>> {
    stations: Vec<Station<C>>,
    ghost named: { map (λ cell. cell.place) stations.items ≡ cells_named (length stations.items) },
}

impl<C: Node<Plain = Cell> + Drop> Cells<C> {
    /// By rising numbers, so that a cell is found at its own (invariant 4).
    pub(crate) fn new(stations: Vec<Station<C>>) -> Self
        requires named { map (λ cell. cell.place) stations.items ≡ cells_named (length stations.items) }
        ensures { result.stations.items ≡ stations.items }
    {
        Cells { stations }
    }

    pub(crate) fn get(&self, index: u8) -> Option<&Station<C>>
        ensures there { (result ≡ None) ↔ (length self.now.stations.items ≤ index) }
        ensures found { IfSome result (λ cell. cell.now.place ≡ node.Cell index) }
    {
        self.stations.get(usize::from(index))
    }

    pub(crate) fn into_stations(self) -> Vec<Station<C>>
        ensures { result.items ≡ self.stations.items }
    {
        let Cells { stations, .. } = self;
        stations
    }
}
