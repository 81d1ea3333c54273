// The kinds of a node. The lent words hold them as numbers: each kind has a constant of its number.

// AstNode of ast.rs, numbered from 1 in its order.
#[derive(Clone, Copy)]
pub enum AstNode {
    Program = 1,
    Block = 2,
    IfStmt = 3,
    ElifStmt = 4,
    ForStmt = 5,
    ReturnStmt = 6,
    ExprStmt = 7,
    VarDecl = 8,
    FnDecl = 9,
    FnParams = 10,
    IdentPair = 11,
    ItemList = 12,
    TableItem = 13,
    Table = 14,
    TableAccess = 15,
    Array = 16,
    ArrayItems = 17,
    ArrayAccess = 18,
    ArrayMutExpr = 19,
    FnCallExpr = 20,
    VarAssignExpr = 21,
    BinaryExpr = 22,
    UnaryExpr = 23,
    PrimaryExpr = 24,
}

pub const PROGRAM: u32 = AstNode::Program as u32;

pub const BLOCK: u32 = AstNode::Block as u32;

pub const IF_STMT: u32 = AstNode::IfStmt as u32;

pub const ELIF_STMT: u32 = AstNode::ElifStmt as u32;

pub const FOR_STMT: u32 = AstNode::ForStmt as u32;

pub const RETURN_STMT: u32 = AstNode::ReturnStmt as u32;

pub const EXPR_STMT: u32 = AstNode::ExprStmt as u32;

pub const VAR_DECL: u32 = AstNode::VarDecl as u32;

pub const FN_DECL: u32 = AstNode::FnDecl as u32;

pub const FN_PARAMS: u32 = AstNode::FnParams as u32;

pub const IDENT_PAIR: u32 = AstNode::IdentPair as u32;

pub const ITEM_LIST: u32 = AstNode::ItemList as u32;

pub const TABLE_ITEM: u32 = AstNode::TableItem as u32;

pub const TABLE: u32 = AstNode::Table as u32;

pub const TABLE_ACCESS: u32 = AstNode::TableAccess as u32;

pub const ARRAY: u32 = AstNode::Array as u32;

pub const ARRAY_ITEMS: u32 = AstNode::ArrayItems as u32;

pub const ARRAY_ACCESS: u32 = AstNode::ArrayAccess as u32;

pub const ARRAY_MUT_EXPR: u32 = AstNode::ArrayMutExpr as u32;

pub const FN_CALL_EXPR: u32 = AstNode::FnCallExpr as u32;

pub const VAR_ASSIGN_EXPR: u32 = AstNode::VarAssignExpr as u32;

pub const BINARY_EXPR: u32 = AstNode::BinaryExpr as u32;

pub const UNARY_EXPR: u32 = AstNode::UnaryExpr as u32;

pub const PRIMARY_EXPR: u32 = AstNode::PrimaryExpr as u32;

// A child more is so much more in a node's first word.
pub const CHILD: u32 = 64;
