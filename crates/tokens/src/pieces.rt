//! Lists of pieces.
ghost use Rattle.std.specs.Prelude.{◌≡◌, ◌≤◌, ◌<◌, ◌++◌, ◌∷◌, [], length, map, IsOk, OnOk, OnErr};
ghost use Rattle.tokens.specs.Cutting.{inline_pieces};
ghost use Rattle.tokens.specs.Meanings.{piece_of};

use crate::{Piece, Sign, Token};
use mk_value::Memory;
use smallvec::SmallVec;
use std::alloc::Global;
use std::default::MadeWith;
use std::marker::Model;

/// How many pieces stand in the list itself. A text of more takes memory.
const INLINE_PIECES: usize = 8;

impl<'a> MadeWith<Global> for Piece<'a> {
    fn made_with(_alloc: Global) -> Piece<'a> {
        Piece {
            place: 0,
            token: Token::Symbol(Sign::Comma),
        }
    }
}

/// The pieces of a text, in order.
#[derive(Drop)]
pub struct Pieces<'a> {
    items: SmallVec<Piece<'a>, INLINE_PIECES>,
}

impl<'a> Model for Pieces<'a> {
    ghost use Rattle.std.specs.Prelude.{List, map, ◌≤◌};
    ghost use Rattle.tokens.specs.Cutting.{inline_pieces};
    ghost use Rattle.tokens.specs.Cutting.{Piece, pieces_code};
    ghost use Rattle.tokens.specs.Meanings.{piece_of};

    ghost Value = { List Piece };

    ghost coded = { pieces_code };

    ghost view = { λ p. map piece_of p.items.items };

    // no list has less room than stands in it
    ghost invariant = { λ p. inline_pieces ≤ p.items.capacity };
}

impl<'a> Pieces<'a> {
    /// No pieces.
    pub(crate) fn new(alloc: Global) -> Pieces<'a>
        ensures { result ≡ [] }
    {
        Pieces {
            items: SmallVec::new(alloc),
        }
    }

    /// Appends a piece.
    pub(crate) fn push(&mut self, piece: Piece<'a>) -> Result<(), Memory>
        ensures ok { OnOk result (self.new ≡ self.old ++ piece_of piece.entry ∷ []) }
        ensures err { OnErr result (self.new ≡ self.old) }
        ensures in_place { length self.old < inline_pieces → IsOk result }
    {
        self.items.push(piece)?;
        Ok(())
    }

    pub fn as_slice(&self) -> &[Piece<'a>]
        ensures { map piece_of result.now ≡ self.now }
    {
        self.items.as_slice()
    }
}
