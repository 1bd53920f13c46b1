//! Geometries at random, as rows of tables: of the kinds and sizes that dumps and streams have, and awkward ones.

use crate::random::Random;
use crate::rows::{Line, Writing, put_line};
use std::alloc::{AllocError, Global};
use twkb_points::Pt;

// Decimals of all coordinates.
const PRECISION: i64 = 5;

// Half the width and half the height of the earth, in units of the fifth decimal of a degree.
const HALF_WIDTH: u32 = 18_000_000;

const HALF_HEIGHT: u32 = 9_000_000;

// The greatest coordinate that there may be.
const FARTHEST: i64 = (1 << 62) - 1;

/// The kinds of inputs.
#[derive(Clone, Copy)]
pub(crate) enum Shape {
    /// A single point, anywhere.
    Stop,
    /// A line of 100 to 1000 points.
    Track,
    /// A multipolygon of one to four polygons with one to three rings of 8 to 200 points.
    Parcel,
    /// Collections 8 to 16 deep with ids, each with a point and a line of two.
    Nest,
    /// A multipoint of up to 40 points with ids of 64 bits.
    Tagged,
    /// A line of four to ten points near the ends of the range.
    Far,
    /// A line of 2 to 40 points.
    Short,
}

/// What makes geometries.
#[derive(Drop)]
pub(crate) struct Maker {
    random: Random,
    writing: Writing,
    points: Vec<Pt>,
}

// A row of a kind below the root, without an id.
fn inner(depth: u32, kind: &'static [u8]) -> Line {
    Line {
        depth,
        kind,
        id: None,
        precision: None,
    }
}

// The root's row of a kind.
fn root(kind: &'static [u8]) -> Line {
    Line {
        depth: 0,
        kind,
        id: None,
        precision: Some(PRECISION),
    }
}

// A member of a collection.
fn member(depth: u32, kind: &'static [u8], id: i64) -> Line {
    Line {
        depth,
        kind,
        id: Some(id),
        precision: Some(PRECISION),
    }
}

impl Maker {
    /// What makes the geometries of a seed.
    pub(crate) fn new(alloc: Global, seed: u64, writing: Writing) -> Maker {
        Maker {
            random: Random::new(seed),
            writing,
            points: Vec::new(alloc),
        }
    }

    // How far steps reach: numbers of one byte, of two or of three, or of a mix.
    fn reach(&mut self) -> u32 {
        match self.random.below(6) {
            0 => 8,
            1 => 40,
            2 => 200,
            3 => 1000,
            4 => 5000,
            _ => 20_000,
        }
    }

    // Keeps one point alone.
    fn at(&mut self, x: i64, y: i64) -> Result<(), AllocError> {
        self.points.clear();
        self.to(x, y)
    }

    // Keeps a point more; none outside the range.
    fn to(&mut self, x: i64, y: i64) -> Result<(), AllocError> {
        if let Some(point) = Pt::try_new(x, y) {
            self.points.push(point)?;
        }
        Ok(())
    }

    // Keeps so many points, from a place on.
    fn walk(&mut self, place: (i64, i64), count: u32, reach: u32) -> Result<(), AllocError> {
        let (mut x, mut y) = place;
        self.points.clear();
        for _ in 0..count {
            self.to(x, y)?;
            x = x.wrapping_add(self.random.within(reach));
            y = y.wrapping_add(self.random.within(reach));
        }
        Ok(())
    }

    // A place on the earth.
    fn place(&mut self) -> (i64, i64) {
        let x = self.random.within(HALF_WIDTH);
        (x, self.random.within(HALF_HEIGHT))
    }

    // Closes a ring.
    fn close(&mut self) -> Result<(), AllocError> {
        let Some(first) = self.points.first().copied() else {
            return Ok(());
        };
        self.points.push(first)?;
        Ok(())
    }

    // Appends a row with the points that are kept.
    fn put(&self, text: &mut Vec<u8>, line: &Line) -> Result<(), AllocError> {
        put_line(text, self.writing, line, &self.points)
    }

    // Appends a row without points.
    fn put_bare(&self, text: &mut Vec<u8>, line: &Line) -> Result<(), AllocError> {
        put_line(text, self.writing, line, &[])
    }

    // A line of so many points from a least number on.
    fn line(&mut self, text: &mut Vec<u8>, least: u32, many: u32) -> Result<(), AllocError> {
        let place = self.place();
        let count = self.random.from(least, many);
        let reach = self.reach();
        self.walk(place, count, reach)?;
        self.put(text, &root(b"linestring"))
    }

    // The rings of a polygon round a place.
    fn polygon(&mut self, text: &mut Vec<u8>, place: (i64, i64)) -> Result<(), AllocError> {
        self.put_bare(text, &inner(1, b"polygon"))?;
        let rings = self.random.from(1, 3);
        for _ in 0..rings {
            let count = self.random.from(7, 193);
            let reach = self.random.from(4, 400);
            self.walk(place, count, reach)?;
            self.close()?;
            self.put(text, &inner(2, b"ring"))?;
        }
        Ok(())
    }

    fn parcel(&mut self, text: &mut Vec<u8>) -> Result<(), AllocError> {
        self.put_bare(text, &root(b"multipolygon"))?;
        let place = self.place();
        let polygons = self.random.from(1, 4);
        for _ in 0..polygons {
            self.polygon(text, place)?;
        }
        Ok(())
    }

    fn nest(&mut self, text: &mut Vec<u8>) -> Result<(), AllocError> {
        self.put_bare(text, &root(b"collection"))?;
        let place = self.place();
        let levels = self.random.from(8, 9);
        for depth in 1..levels {
            let id = self.random.within(1_000_000);
            self.walk(place, 1, 0)?;
            self.put(text, &member(depth, b"point", id))?;
            self.walk(place, 2, 5000)?;
            self.put(text, &member(depth, b"linestring", id.wrapping_add(1)))?;
            self.put_bare(text, &member(depth, b"collection", id.wrapping_add(2)))?;
        }
        self.walk(place, 1, 0)?;
        self.put(text, &member(levels, b"point", 7))
    }

    fn tagged(&mut self, text: &mut Vec<u8>) -> Result<(), AllocError> {
        self.put_bare(text, &root(b"multipoint"))?;
        let (x, y) = self.place();
        let count = self.random.from(1, 40);
        for _ in 0..count {
            let east = self.random.within(5000);
            let north = self.random.within(5000);
            self.at(x.wrapping_add(east), y.wrapping_add(north))?;
            let mut line = inner(1, b"point");
            line.id = Some(i64::from_le_bytes(self.random.next().to_le_bytes()));
            self.put(text, &line)?;
        }
        Ok(())
    }

    fn far(&mut self, text: &mut Vec<u8>) -> Result<(), AllocError> {
        self.points.clear();
        let count = self.random.from(2, 4);
        for _ in 0..count {
            let x = FARTHEST.wrapping_sub(i64::from(self.random.below(1000)));
            let y = FARTHEST.wrapping_sub(i64::from(self.random.below(1000)));
            self.to(x.wrapping_neg(), y)?;
            self.to(x, y.wrapping_neg())?;
        }
        self.put(text, &root(b"linestring"))
    }

    /// Appends the rows of a geometry.
    pub(crate) fn make(&mut self, text: &mut Vec<u8>, shape: Shape) -> Result<(), AllocError> {
        match shape {
            Shape::Stop => {
                let (x, y) = self.place();
                self.at(x, y)?;
                self.put(text, &root(b"point"))
            }
            Shape::Track => self.line(text, 100, 901),
            Shape::Parcel => self.parcel(text),
            Shape::Nest => self.nest(text),
            Shape::Tagged => self.tagged(text),
            Shape::Far => self.far(text),
            Shape::Short => self.line(text, 2, 39),
        }
    }

    /// Appends the row of one long line.
    pub(crate) fn make_long(&mut self, text: &mut Vec<u8>, count: u32) -> Result<(), AllocError> {
        let place = self.place();
        self.walk(place, count, 500)?;
        self.put(text, &root(b"linestring"))
    }
}
