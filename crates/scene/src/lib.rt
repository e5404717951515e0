// The questions of a site as entry points: the Rust's `Scene` without its building (`scene.rs`) and the questions of its grid (`grid.rs`), over lent tables.
// No entry point requires anything. Each tests, in document 01's order, that the tables are sound (6), that the numbers given are in the domain (1), that
// there are enough marks (7) and enough room (8), and answers the refusal of the first test that fails. A refusal as 6, 1 or 7 writes nothing.
// Numbers are loaded: minus zero becomes plus zero.
// Meanings: specs/Asked.antt (the order of tests), specs/Answers.antt (each answer), specs/Stamping.antt (calls that write), specs/Numbers.antt (answers as
// numbers). When each call is refused, and as what, is proofs/Refusals.antt.
#![tactic(auto)]

ghost use Rattle.std.specs.Prelude.{◌≡◌};
ghost use Rattle.grid.specs.Query.{Is};
ghost use Rattle.site.specs.Tables.{tables_of};
ghost use Rattle.scene.specs.Asked.{admit_of, ray_in_domain};
ghost use Rattle.scene.specs.Answers.{width_of, height_of, bounds_of, dims_of, polygon_of, polygon_vertices_of, polygon_vertices_number_of, edge_of, edge_end_of, edge_owner_of, items_at_of, items_at_number_of, polygon_at_of, cast_ray_of};
ghost use Rattle.scene.specs.Stamping.{polygons_near_of, new_stamps_of, NewIs};

use geom::{Aabb, Vec2};
use grid::{Dims, Listing};
use refusal::Refusal;
use sight::Sighting;
use site::{Ends, Site, SiteTables};

// A site's head and its six lent tables: the Rust's `Scene`.
#[derive(Clone, Copy)]
pub struct Scene<'a, 'points, 'items> {
    pub site: Site,
    pub tables: SiteTables<'a, 'points, 'items>,
}

// The Rust's `Polygon`, without its centre and colour.
#[derive(Clone, Copy)]
pub struct Polygon {
    pub first: u32,
    pub len: u32,
    pub aabb: Aabb,
}

// Are the ray's numbers in the domain? The origin and the direction's components are coordinates; the length is anything but NaN; the mode is 0 or 1.
fn ray_in_domain(o: Vec2, d: Vec2, length: f64, mode: u32) -> bool
    ensures { result ≡ ray_in_domain o d length mode }
{
    site::point_in_domain(o) & site::point_in_domain(d) & !num::is_nan(length) & (mode <= 1)
}

impl<'a, 'points, 'items> Scene<'a, 'points, 'items> {
    // ---- the tests of every question

    // Refuses unsound tables, and then what is asked where it is not `inside` the domain.
    fn admit(&self, inside: bool) -> Result<(), Refusal>
        ensures { result ≡ admit_of self.now.site (tables_of self.now.tables) inside }
    {
        if !site::is_sound(self.site, self.tables) {
            return Err(Refusal::Unsound);
        }
        if !inside {
            return Err(Refusal::OutsideDomain);
        }
        Ok(())
    }

    // ---- the head

    // World width.
    pub fn width(&self) -> Result<f64, Refusal>
        ensures { result ≡ width_of self.now.site (tables_of self.now.tables) }
    {
        self.admit(true)?;
        Ok(site::load(self.site.width))
    }

    // World height.
    pub fn height(&self) -> Result<f64, Refusal>
        ensures { result ≡ height_of self.now.site (tables_of self.now.tables) }
    {
        self.admit(true)?;
        Ok(site::load(self.site.height))
    }

    // The box around the world and every polygon, computed from the tables.
    pub fn bounds(&self) -> Result<Aabb, Refusal>
        ensures { result ≡ bounds_of self.now.site (tables_of self.now.tables) }
    {
        self.admit(true)?;
        let count = self.site.polygons as usize;
        Ok(extent::bounds_of(
            site::load(self.site.width),
            site::load(self.site.height),
            self.tables.boxes,
            count,
        ))
    }

    // The grid's columns and rows.
    pub fn dims(&self) -> Result<Dims, Refusal>
        ensures { result ≡ dims_of self.now.site (tables_of self.now.tables) }
    {
        self.admit(true)?;
        Ok(Dims {
            cols: self.site.grid.cols,
            rows: self.site.grid.rows,
        })
    }

    // ---- polygons

    // The polygon `id`.
    pub fn polygon(&self, id: u32) -> Result<Polygon, Refusal>
        ensures { result ≡ polygon_of self.now.site (tables_of self.now.tables) id }
    {
        self.admit(id < self.site.polygons)?;
        Ok(Polygon {
            first: site::first_of(self.tables.polygons, id),
            len: site::len_of(self.tables.polygons, id),
            aabb: grid::box_at(self.tables.boxes, id as usize),
        })
    }

    // The points of the polygon `id`, x and y by turns, as a part of the point list; empty on refusal.
    pub fn polygon_vertices(&self, id: u32) -> &'points [f64]
        ensures { result.now ≡ polygon_vertices_of self.now.site (tables_of self.now.tables) id }
    {
        match self.admit(id < self.site.polygons) {
            Ok(()) => site::verts_of(self.tables.points, self.tables.polygons, id),
            Err(_) => &self.tables.points[0..0],
        }
    }

    // How many points they are.
    pub fn polygon_vertices_number(&self, id: u32) -> Result<usize, Refusal>
        ensures { result ≡ polygon_vertices_number_of self.now.site (tables_of self.now.tables) id }
    {
        self.admit(id < self.site.polygons)?;
        Ok(site::len_of(self.tables.polygons, id) as usize)
    }

    // ---- edges. An edge has the number of its first point.

    // The ends of the edge `edge`.
    pub fn edge(&self, edge: u32) -> Result<Ends, Refusal>
        ensures { result ≡ edge_of self.now.site (tables_of self.now.tables) edge }
    {
        self.admit(edge < self.site.points)?;
        Ok(site::edge(
            self.tables.points,
            self.tables.polygons,
            self.tables.owners,
            edge,
        ))
    }

    // The number of the point at which the edge `edge` ends.
    pub fn edge_end(&self, edge: u32) -> Result<u32, Refusal>
        ensures { result ≡ edge_end_of self.now.site (tables_of self.now.tables) edge }
    {
        self.admit(edge < self.site.points)?;
        Ok(site::edge_end(self.tables.polygons, self.tables.owners, edge))
    }

    // The polygon that owns the edge `edge`.
    pub fn edge_owner(&self, edge: u32) -> Result<u32, Refusal>
        ensures { result ≡ edge_owner_of self.now.site (tables_of self.now.tables) edge }
    {
        self.admit(edge < self.site.points)?;
        Ok(site::owner_at(self.tables.owners, edge as usize))
    }

    // ---- stamps

    // Makes the lent stamps new: every mark zero, and epoch 0. There must be a mark for each polygon.
    pub fn new_stamps(&self, marks: &mut [u32], epoch: &mut u32) -> Result<(), Refusal>
        ensures { NewIs (new_stamps_of self.now.site (tables_of self.now.tables)
            marks.old epoch.old) result marks.new epoch.new }
    {
        self.admit(true)?;
        if marks.len() < self.site.polygons as usize {
            return Err(Refusal::FewStamps);
        }
        grid::new_stamps(marks, epoch);
        Ok(())
    }

    // `for_each_polygon_near` as a list writer: the polygons whose cells the box b covers, each once, in the order of their first meeting.
    pub fn polygons_near(
        &self,
        b: Aabb,
        marks: &mut [u32],
        epoch: &mut u32,
        ids: &mut [u32],
    ) -> Result<Listing, Refusal>
        ensures { Is (polygons_near_of self.now.site (tables_of self.now.tables)
            b marks.old epoch.old ids.old) result marks.new epoch.new ids.new }
    {
        self.admit(site::box_in_domain(b))?;
        if marks.len() < self.site.polygons as usize {
            return Err(Refusal::FewStamps);
        }
        let g = self.site.grid;
        let t = self.tables;
        grid::box_query(g, t.starts, t.items, site::load_box(b), marks, epoch, ids)
    }

    // ---- a point

    // The ids of the polygons in the cell that holds p (their boxes may not hold it), as a part of the item list; empty on refusal.
    pub fn items_at(&self, p: Vec2) -> &'items [u32]
        ensures { result.now ≡ items_at_of self.now.site (tables_of self.now.tables) p }
    {
        match self.admit(site::point_in_domain(p)) {
            Ok(()) => {
                let g = self.site.grid;
                grid::items_at(
                    g,
                    self.tables.starts,
                    self.tables.items,
                    site::load_point(p),
                )
            }
            Err(_) => &self.tables.items[0..0],
        }
    }

    // How many they are.
    pub fn items_at_number(&self, p: Vec2) -> Result<usize, Refusal>
        ensures { result ≡ items_at_number_of self.now.site (tables_of self.now.tables) p }
    {
        self.admit(site::point_in_domain(p))?;
        let g = self.site.grid;
        Ok(grid::items_at_number(
            g,
            self.tables.starts,
            self.tables.items,
            site::load_point(p),
        ))
    }

    // The top-most (last drawn) polygon that holds p.
    pub fn polygon_at(&self, p: Vec2) -> Result<Option<u32>, Refusal>
        ensures { result ≡ polygon_at_of self.now.site (tables_of self.now.tables) p }
    {
        self.admit(site::point_in_domain(p))?;
        let g = self.site.grid;
        Ok(sight::polygon_at(g, &self.tables, site::load_point(p)))
    }

    // ---- a ray

    // The nearest edge that the ray `o + t * d`, t up to `length`, hits, found by walking the grid's cells along the ray, nearest first. `d` is to be a unit
    // vector, so that t is a distance. Where several edges that it tests are hit at exactly the distance answered, mode 0 answers the one tested first, as the Rust
    // does, and mode 1 the lowest. The mode is a number and no enum, since any other is refused.
    pub fn cast_ray(&self, o: Vec2, d: Vec2, length: f64, mode: u32) -> Result<Sighting, Refusal>
        ensures { result ≡ cast_ray_of self.now.site (tables_of self.now.tables) o d length mode }
    {
        self.admit(ray_in_domain(o, d, length, mode))?;
        let g = self.site.grid;
        let seen = sight::cast_ray(
            g,
            &self.tables,
            site::load_point(o),
            site::load_point(d),
            site::load(length),
            mode,
        );
        Ok(seen)
    }
}
